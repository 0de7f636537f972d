// The fields of a header (CIE), by its place.
ghost use Rattle.std.specs.Prelude.{◌≡◌, ◌+◌, ◌≤◌, length, drop};
ghost use Rattle.format.specs.Numbers.{number_of};
ghost use Rattle.reader.specs.Fields.{letters_of};
ghost use Rattle.parts.specs.Faults.{fault_number};
ghost use Rattle.parts.specs.Headers.{no_header, header_rest, header_from, header_parts, header_numbers, header_answer, read_header_at};
ghost use Rattle.parts.specs.Agrees.{HeaderTaken};

use crate::body::Placed;
use crate::field::{self, Field};
use crate::placed;
use format::Question;
use operations::fields::{Position, read_le, read_sleb, read_uleb};
use reader::fields::{Augmentation, Header};

// What unwind_read_header answers.
// Kept: a number beside the fields, which are 0 where it refuses, since C reads it.
#[repr(C)]
#[derive(Clone, Copy, Default)]
pub struct HeaderRead {
    pub number: u64,
    pub field: u64,
    pub personality: u64,
    pub lsda: u64,
    pub signal: u64,
    pub return_register: u64,
    pub pointer: u64,
    pub operations: u64,
    pub end: u64,
}

#[tactic(auto, unfolding(crate::specs::Headers::no_header))]
fn refused(question: Question, at_fault: Option<Field>) -> HeaderRead
    ensures { result ≡ no_header (number_of question) (fault_number at_fault) }
{
    HeaderRead {
        number: question.number(),
        field: field::fault(at_fault),
        ..HeaderRead::default()
    }
}

impl Placed<'_> {
    // From the augmentation data on, or the field at fault.
    fn header_rest(&self, at: Position, p: Augmentation, reg: u64) -> Result<HeaderRead, Field>
        requires { at.at ≤ length self.now.body.bytes.now }
        ensures { header_answer result ≡ header_numbers (self.now.base + length self.now.body.bytes.now) (header_rest self.now.body.layout.debug (letters_of p) self.now.body.layout.word reg (drop at.at self.now.body.bytes.now)) }
    {
        let Some(
            Header {
                operations,
                pointer,
                signal,
            },
        ) = self.body.header_tail(at, p)
        else {
            return Err(Field::HeaderData);
        };
        let start = operations.at;
        Ok(HeaderRead {
            number: 0,
            field: 0,
            personality: u64::from(p.personality),
            lsda: u64::from(p.lsda),
            signal: u64::from(signal),
            return_register: reg,
            pointer,
            operations: self.base + start as u64,
            end: self.end(),
        })
    }

    // From the code alignment factor on.
    // Kept: beside the reader's `header_factors` and `parse_header`, which read these fields too. One function would answer, for this one alone, the return
    // register, what the string announces and the field at fault, and would carry the mark of spelling, which is not asked here.
    fn header_factors(&self, at: Position, p: Augmentation) -> Result<HeaderRead, Field>
        ensures { header_answer result ≡ header_numbers (self.now.base + length self.now.body.bytes.now) (header_from self.now.body.layout.debug (letters_of p) self.now.body.layout.word (drop at.at self.now.body.bytes.now)) }
    {
        let body = self.body.bytes;
        let Some((code, a)) = read_uleb(body, at) else {
            return Err(Field::CodeFactor);
        };
        if code != 1 {
            return Err(Field::CodeFactor);
        }
        let Some((z, b)) = read_sleb(body, a) else {
            return Err(Field::DataFactor);
        };
        if !reader::fields::factor_ok(z, self.body.layout.word) {
            return Err(Field::DataFactor);
        }
        let Some((reg, c)) = read_uleb(body, b) else {
            return Err(Field::Return);
        };
        if 0xffff < reg {
            return Err(Field::Return);
        }
        self.header_rest(c, p, reg)
    }

    // The fields in the bytes behind a header's length.
    fn header_fields(&self) -> Result<HeaderRead, Field>
        ensures { header_answer result ≡ header_numbers (self.now.base + length self.now.body.bytes.now) (header_parts self.now.body.layout.debug self.now.body.layout.word self.now.body.bytes.now) }
    {
        let body = self.body.bytes;
        let Some((_, version)) = read_le(body, Position::START, 4) else {
            return Err(Field::Version);
        };
        let from = version.at;
        if body.len() <= from {
            return Err(Field::Version);
        }
        if body[from] != 1 {
            return Err(Field::Version);
        }
        let string = Position {
            at: from + 1,
            ..version
        };
        let Some((p, past)) = reader::fields::letters(body, string, self.body.layout.debug) else {
            return Err(Field::Letters);
        };
        self.header_factors(past, p)
    }
}

// Kept: its parameters one by one, as C passes them. The layout, the entry and its kind are asked here and in `unwind_read_record`: one function for both
// would have a clause by cases over what `layout_of` and `next_entry` answer, and each caller would still take its answer apart and ask the kind.
// Kept: `let .. else` on the answers of LEB numbers and headers, here and in records, is a form that document 01 names (docs/DECISIONS.md); on that of
// `layout_of`, since the export answers C's struct, and `?` is of a Result.
// The header at a place: 0; 11, 61, 63 where it is a record, 64 and the field at fault.
#[unsafe(no_mangle)]
pub extern "C" fn unwind_read_header(section: &[u8], kind: u64, word: u64, place: u64) -> HeaderRead
    ensures result_value { result ≡ read_header_at section.now kind word place }
    ensures taken { HeaderTaken section.now kind word place result }
{
    let Some(layout) = reader::layout_of(kind, word) else {
        return refused(Question::Interface, None);
    };
    let Ok(e) = reader::cursor::next_entry(section, layout.debug, place as usize) else {
        return refused(Question::Tiling, None);
    };
    if !e.header {
        return refused(Question::Header, None);
    }
    match placed(section, layout, e).header_fields() {
        Ok(header) => header,
        Err(field) => refused(Question::Fields, Some(field)),
    }
}
