// Where the operations of record k and of its header are: questions 61 to 64, in this order.
ghost use Rattle.std.specs.Prelude.{◌≡◌, ◌&&◌, ◌+◌, ◌≤◌, T, eqb, ltb, IfOk};
ghost use Rattle.format.specs.Questions.{is_some};
ghost use Rattle.format.specs.Reader.{is_header, distance_back, first_addend, header_place, header_at, entries, parsed, locate};
ghost use Rattle.format.specs.Lists.{relocations_of};
ghost use Rattle.format.specs.Prelude.{after};
ghost use Rattle.format.proofs.Asked.{option_of};
ghost use Rattle.reader.specs.Spans.{part, entry_of, listed, Holds, Ahead, Spans};
ghost use Rattle.reader.specs.Finds.{Searching, spans_of, Locates, two_entries, Stand};

use crate::entries::{self, Entries};
use crate::section::{Body, Links, Section, Span};
use format::Question;

// ---- the header of a record

// The addend of the first relocation at a place, which none in front of the i-th has; a relocation is five numbers, the place first and the
// addend last.
// Kept: that none in front has it is a clause (`Searching`) here and of reads' `header_place` and `header_start`, which have another place in each
// call: a struct of list, place and index would be made for one call.
pub fn addend_from(relocs: &[u64], place: u64, from: usize) -> Option<usize>
    requires { Searching relocs.now place from }
    ensures { result ≡ option_of (first_addend place (relocations_of relocs.now)) }
{
    let n = relocs.len() / relocs::RELOCATION_STRIDE;
    let i = (from..n).find(|i| relocs[relocs::RELOCATION_STRIDE * *i] == place)?;
    Some(relocs[relocs::RELOCATION_STRIDE * i + relocs::RELOCATION_ADDEND] as usize)
}

// The same of all relocations.
pub fn first_addend(relocs: &[u64], place: u64) -> Option<usize>
    ensures { result ≡ option_of (first_addend place (relocations_of relocs.now)) }
{
    addend_from(relocs, place, 0)
}

impl Span {
    // The place that lies the second field before that field.
    pub fn distance_back(self, s: &[u8]) -> Option<usize>
        requires { Holds s.now self }
        ensures { result ≡ option_of (distance_back (entry_of s.now self)) }
    {
        let distance = self.second(s) as usize;
        (self.at + 4).checked_sub(distance)
    }
}

impl Links<'_> {
    // Where the header of a record starts, as its second field says or, in debug_frame, that field's relocation.
    pub fn header_place(&self, record: Span) -> Option<usize>
        requires { Holds self.now.bytes.now «record» }
        ensures { result ≡ option_of (header_place self.now.debug (relocations_of self.now.relocations.now) (entry_of self.now.bytes.now «record»)) }
    {
        if self.debug {
            return first_addend(self.relocations, (record.at + 4) as u64);
        }
        record.distance_back(self.bytes)
    }

    // An entry is a header, starts at a place, and that place is earlier than `before`.
    pub fn starts(&self, entry: Span, place: usize, before: usize) -> bool
        requires { Holds self.now.bytes.now entry }
        ensures { result ≡ eqb entry.at place && ltb place before && is_header self.now.debug (entry_of self.now.bytes.now entry) }
    {
        entry.at == place && place < before && entry.is_header(self.bytes, self.debug)
    }

    // The header that starts at a place earlier than `before`, searched for from an entry in front of it.
    pub fn header_from(&self, from: usize, place: usize, before: usize) -> Option<Span>
        requires { Ahead self.now.bytes.now from × (from ≤ place) }
        ensures { Spans self.now.bytes.now result (header_at self.now.debug place before (listed (entries self.now.bytes.now))) }
    {
        Entries::starting(self.bytes, from).find(|entry| self.starts(*entry, place, before))
    }

    // Question 63: the header of a record.
    pub fn header_of(&self, record: Span) -> Option<Span>
        requires { Holds self.now.bytes.now «record» × T (is_some (entries self.now.bytes.now)) }
        ensures { Spans self.now.bytes.now result (after (header_place self.now.debug (relocations_of self.now.relocations.now) (entry_of self.now.bytes.now «record»)) λ place. header_at self.now.debug place «record».at (listed (entries self.now.bytes.now))) }
    {
        let place = self.header_place(record)?;
        self.header_from(0, place, record.at)
    }
}

// ---- the fields of both

// Where the operations of record k and of its header are, the function's length, the header's signal mark, the bytes of a record's pointer
// to call sites, the word, and whether the numbers among the fields of both are spelled shortest.
// Kept: four places, as C's struct has them (reads), from and into which From goes field by field; `operations` gives the spans.
#[derive(Clone, Copy)]
pub struct Located {
    pub header: usize,
    pub header_end: usize,
    pub record: usize,
    pub record_end: usize,
    pub size: u64,
    pub pointer: u64,
    pub signal: bool,
    pub word: u64,
    pub shortest: bool,
}

impl Located {
    // Where the operations of the header are, and those of the record.
    #[tactic(auto, unfolding(crate::specs::Finds::spans_of))]
    pub fn operations(&self) -> [Span; 2]
        ensures { result ≡ spans_of self.now }
    {
        [
            Span {
                at: self.header,
                end: self.header_end,
            },
            Span {
                at: self.record,
                end: self.record_end,
            },
        ]
    }
}

impl<'a> Section<'a> {
    // What its records find their headers by.
    pub fn links(&self) -> Links<'a>
        ensures { (result.bytes.now ≡ self.now.bytes.now) × (result.relocations.now ≡ self.now.relocations.now) × (result.debug ≡ self.now.layout.debug) }
    {
        Links {
            bytes: self.bytes,
            relocations: self.relocations,
            debug: self.layout.debug,
        }
    }

    // The bytes behind an entry's length.
    pub fn body(&self, e: Span) -> Body<'a>
        requires { Holds self.now.bytes.now e }
        ensures { (result.bytes.now ≡ part self.now.bytes.now (e.at + 4) e.end) × (result.layout ≡ self.now.layout) }
    {
        let from = e.at + 4;
        let to = e.end;
        Body {
            bytes: &self.bytes[from..to],
            layout: self.layout,
        }
    }

    // Question 64 of a header, and then of a record: what is found, or that question.
    pub fn parse(&self, cie: Span, fde: Span) -> Result<Located, Question>
        requires { Holds self.now.bytes.now cie × Holds self.now.bytes.now fde }
        ensures located { Locates self.now.bytes.now self.now.layout.word result (parsed self.now.layout.debug self.now.layout.word (entry_of self.now.bytes.now cie) (entry_of self.now.bytes.now fde)) }
        ensures ends { IfOk result (λ l. (l.header_end ≡ cie.end) × (l.record_end ≡ fde.end)) }
    {
        let header = self.body(cie).parse_header()?;
        let rules = header.operations;
        let record = self.body(fde).parse_record(header.pointer, rules.shortest)?;
        let rows = record.operations;
        Ok(Located {
            header: cie.at + 4 + rules.at,
            header_end: cie.end,
            record: fde.at + 4 + rows.at,
            record_end: fde.end,
            size: record.size,
            pointer: header.pointer,
            signal: header.signal,
            word: self.layout.word,
            shortest: rows.shortest,
        })
    }

    // Questions 61 to 63, in this order: where the header of record k and the record stand.
    pub fn header_and_record(&self, k: u64) -> Result<(Span, Span), Question>
        ensures { Stand self.now.bytes.now result (two_entries self.now.layout.debug (relocations_of self.now.relocations.now) k self.now.bytes.now) }
    {
        if !entries::tiles(self.bytes) {
            return Err(Question::Tiling);
        }
        let Some(record) = entries::record_span(self.bytes, self.layout.debug, k) else {
            return Err(Question::Record);
        };
        let Some(header) = self.links().header_of(record) else {
            return Err(Question::Header);
        };
        Ok((header, record))
    }

    // Questions 61 to 64, in this order.
    pub fn locate(&self, k: u64) -> Result<Located, Question>
        ensures { Locates self.now.bytes.now self.now.layout.word result (locate self.now.layout.debug (relocations_of self.now.relocations.now) self.now.layout.word k self.now.bytes.now) }
    {
        let (header, record) = self.header_and_record(k)?;
        self.parse(header, record)
    }
}
