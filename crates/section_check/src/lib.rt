// The check of an eh_frame section that another tool wrote, and its export. rucc-asm/src/unwind.rs of tamnd/rucc has no such check.
#![tactic(auto)]

ghost use Rattle.std.specs.Prelude.{◌≡◌, false, ◌+◌, ◌≤◌, ◌<◌, length, T};
ghost use Rattle.format.proofs.Asked.{option_of};
ghost use Rattle.format.specs.Prelude.{after};
ghost use Rattle.format.specs.Questions.{is_some};
ghost use Rattle.format.specs.Reader.{distance_back, header_at, records, entries};
ghost use Rattle.reader.specs.Spans.{entry_of, listed, Holds, Spans};
ghost use Rattle.section_check.specs.Check.{length_of, check_from, check_section, Means};
ghost use Rattle.section_check.specs.Answered.{checked_of};
ghost use Rattle.section_check.specs.Places.{marked, mark_before, answers_in, passes_in};

use crate::marks::{Passed, Stretches};
use format::{Question, Refusal};
use operations::fields::{Position, read_le};
use reader::entries::Entries;
use reader::section::{Section, Span};

pub mod marks;

// The kind of an eh_frame section.
// Kept: a number, since `reader::section_of` takes any that C hands in.
const EH_FRAME: u64 = 0;

// What is answered: 0, or 11, 61 or 84; with 84 the first record that does not pass, counted from 0.
// Kept: a number beside the record's, since C reads it.
#[repr(C)]
#[derive(Clone, Copy)]
pub struct Checked {
    pub number: u64,
    pub record: u64,
}

impl From<Result<(), Refusal>> for Checked {
    ghost from_gives = { λ r c. c ≡ checked_of r };

    #[tactic(auto, unfolding(crate::specs::Check::saying))]
    fn from(answer: Result<(), Refusal>) -> Checked {
        match answer {
            Ok(()) => Checked {
                number: 0,
                record: 0,
            },
            Err(refusal) => Checked {
                number: refusal.question.number(),
                record: refusal.position,
            },
        }
    }
}

// ---- the header of a record

// A section has a mark for each stretch of `step` bytes: the first entry that starts in it.
// Kept: `mark` and `mark_before` beside the methods of Stretches, which call them: public, for any slice (D127).
pub fn mark(marks: &mut [usize], step: usize, at: usize)
    requires { 0 < step }
    ensures { marks.new ≡ marked step at marks.old }
{
    let i = at / step;
    if i < marks.len() && marks[i] == 0 {
        marks[i] = at;
    }
}

// Where the search for the entry at a place starts.
pub fn mark_before(marks: &[usize], step: usize, place: usize) -> usize
    requires { 0 < step }
    ensures { result ≡ mark_before step place marks.now }
{
    match marks.get(place / step) {
        Some(at) if *at <= place => *at,
        _ => 0,
    }
}

impl<const N: usize> Stretches<N> {
    // The entry at a place was passed.
    pub fn mark(&mut self, at: usize)
        ensures { (self.new.marks ≡ marked self.old.step at self.old.marks) × (self.new.step ≡ self.old.step) }
    {
        mark(&mut self.marks, self.step, at);
    }

    pub fn before(&self, place: usize) -> usize
        ensures { result ≡ mark_before self.now.step place self.now.marks }
    {
        mark_before(&self.marks, self.step, place)
    }
}

// ---- a record

// The length of a record's function.
fn size_of(s: &[u8], fde: Span) -> Option<u64>
    requires { Holds s.now fde }
    ensures { result ≡ option_of (length_of (entry_of s.now fde)) }
{
    let body = fde.at + 4;
    let end = fde.end;
    let (n, _) = read_le(&s[body..end], Position::from(8), 4)?;
    Some(n)
}

impl<'a> Passed<'a> {
    // The header of a record.
    fn header_of(&self, fde: Span) -> Option<Span>
        requires { Holds self.now.section.now.bytes.now fde }
        ensures { Spans self.now.section.now.bytes.now result (after (distance_back (entry_of self.now.section.now.bytes.now fde)) λ place. header_at false place fde.at (listed (entries self.now.section.now.bytes.now))) }
    {
        let place = fde.distance_back(self.section.bytes)?;
        let from = self.stretches.before(place);
        self.section.links().header_from(from, place, fde.at)
    }

    // Whether the reader answers for register 0 at offset p of a record.
    fn answers_at(&self, fde: Span, p: u64) -> bool
        requires { Holds self.now.section.now.bytes.now fde }
        ensures { result ≡ answers_in self.now.section.now.bytes.now self.now.section.now.layout.word (entry_of self.now.section.now.bytes.now fde) p }
    {
        let Some(cie) = self.header_of(fde) else {
            return false;
        };
        let Ok(l) = self.section.parse(cie, fde) else {
            return false;
        };
        reader::rules_at(self.section.bytes, l, 0, p).is_ok()
    }

    // Whether a record passes: one read, at the last offset.
    fn passes(&self, fde: Span) -> bool
        requires { Holds self.now.section.now.bytes.now fde }
        ensures { result ≡ passes_in self.now.section.now.bytes.now self.now.section.now.layout.word (entry_of self.now.section.now.bytes.now fde) }
    {
        let Some(n) = size_of(self.section.bytes, fde) else {
            return false;
        };
        if n == 0 {
            return true;
        }
        self.answers_at(fde, n - 1)
    }
}

// ---- the section

// The records, one after the other: 84 with the first that does not pass.
// Kept: over the entries, and not over `Records`. A header is marked too: where it is the first entry of its stretch, which in a section of many headers
// most are, the search for it would start at 0 else. So k is counted by hand: the loop goes over all entries, and `enumerate` would count the headers.
fn check_records(section: &Section) -> Result<(), Refusal>
    requires { (section.now.layout.debug ≡ false) × T (is_some (entries section.now.bytes.now)) }
    ensures { checked_of result ≡ check_from section.now.bytes.now section.now.layout.word 0 (records false (listed (entries section.now.bytes.now))) }
{
    let s = section.bytes;
    // A frame above 32 KiB is probed in a loop, for which the compiler takes a register that may be in use; with 2,048 marks it stays below.
    let mut stretches = Stretches {
        marks: [0; 2048],
        step: s.len() / 2048 + 1,
    };
    let mut k = 0;
    'entries: for entry in Entries::new(s) {
        stretches.mark(entry.at);
        if entry.is_header(s, false) {
            continue 'entries;
        }
        let passed = Passed {
            section: &*section,
            stretches: &stretches,
        };
        if !passed.passes(entry) {
            return Err(Refusal {
                question: Question::EveryOffset,
                position: k,
            });
        }
        k += 1;
    }
    Ok(())
}

// The questions in order: the word, the entries, and the records.
fn check(section: &[u8], word: u64) -> Result<(), Refusal>
    ensures { checked_of result ≡ check_section section.now word }
{
    let none = [];
    let Some(section) = reader::section_of(section, &none, EH_FRAME, word) else {
        return Err(Refusal::from(Question::Interface));
    };
    if !reader::entries::tiles(section.bytes) {
        return Err(Refusal::from(Question::Tiling));
    }
    check_records(&section)
}

// Whether an eh_frame section tiles and the reader answers at every offset below each record's length, with this word.
#[unsafe(no_mangle)]
pub extern "C" fn unwind_check_section(section: &[u8], word: u64) -> Checked
    ensures value { result ≡ check_section section.now word }
    ensures means { Means section.now word result }
{
    Checked::from(check(section, word))
}
