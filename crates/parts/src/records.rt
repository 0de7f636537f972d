// The fields of a record (FDE), by its place.
ghost use Rattle.std.specs.Prelude.{◌≡◌, ◌+◌, ◌≤◌, length, drop};
ghost use Rattle.format.specs.Numbers.{number_of};
ghost use Rattle.parts.specs.Faults.{fault_number};
ghost use Rattle.parts.specs.Records.{call_site_bytes, no_record, record_rest, record_parts, record_numbers, record_answer, read_record_at};
ghost use Rattle.parts.specs.Agrees.{RecordTaken};

use crate::body::Placed;
use crate::field::{self, Field};
use crate::placed;
use format::Question;
use operations::fields::{Position, read_le, read_uleb};
use reader::fields::Record;

// What unwind_read_record answers.
// Kept: a number beside the fields, which are 0 where it refuses, since C reads it.
#[repr(C)]
#[derive(Clone, Copy, Default)]
pub struct RecordRead {
    pub number: u64,
    pub field: u64,
    pub header: u64,
    pub function: u64,
    pub length: u64,
    pub call_sites: u64,
    pub operations: u64,
    pub end: u64,
}

#[tactic(auto, unfolding(crate::specs::Records::no_record))]
fn refused(question: Question, at_fault: Option<Field>) -> RecordRead
    ensures { result ≡ no_record (number_of question) (fault_number at_fault) }
{
    RecordRead {
        number: question.number(),
        field: field::fault(at_fault),
        ..RecordRead::default()
    }
}

impl Placed<'_> {
    // Where the pointer to call sites stands, by the place of the augmentation data.
    fn call_sites(&self, at: Position, pointer: u64) -> u64
        ensures { result ≡ call_site_bytes self.now.body.layout.debug pointer (self.now.base + length self.now.body.bytes.now) (drop at.at self.now.body.bytes.now) }
    {
        if self.body.layout.debug {
            return 0;
        }
        if pointer == 0 {
            return 0;
        }
        let Some((_, past)) = read_uleb(self.body.bytes, at) else {
            return 0;
        };
        let data = past.at;
        self.base + data as u64
    }
}

// The fields in front of the augmentation data.
#[derive(Clone, Copy)]
struct Front {
    header: u64,
    function: u64,
    length: u64,
}

impl Placed<'_> {
    // From the augmentation data on, or the field at fault.
    fn record_rest(&self, at: Position, pointer: u64, f: Front) -> Result<RecordRead, Field>
        requires { at.at ≤ length self.now.body.bytes.now }
        ensures { record_answer result ≡ record_numbers self.now.body.layout.debug pointer (self.now.base + length self.now.body.bytes.now) (record_rest self.now.body.layout.debug pointer f.header f.function f.length (drop at.at self.now.body.bytes.now)) }
    {
        let Some(Record { operations, size }) = reader::fields::record_tail(
            self.body.bytes,
            at,
            self.body.layout.debug,
            pointer,
            f.length,
        ) else {
            return Err(Field::RecordData);
        };
        let start = operations.at;
        Ok(RecordRead {
            number: 0,
            field: 0,
            header: f.header,
            function: f.function,
            length: size,
            call_sites: self.call_sites(at, pointer),
            operations: self.base + start as u64,
            end: self.end(),
        })
    }

    // The fields in the bytes behind a record's length.
    // Kept: `Body::parse_record` and `reads::addresses::fields_of` read these three numbers too, and want other parts of them: the length, behind a mark
    // that is handed on; the place and the length of the function; and here all three and, at a fault, which it is. One function would answer all with
    // `Result<(u64, u64, u64, Position), Field>` and a clause by cases, which each caller takes apart in place of three calls of `read_le`.
    fn record_fields(&self, pointer: u64) -> Result<RecordRead, Field>
        ensures { record_answer result ≡ record_numbers self.now.body.layout.debug pointer (self.now.base + length self.now.body.bytes.now) (record_parts self.now.body.layout.debug self.now.body.layout.word pointer self.now.body.bytes.now) }
    {
        let body = self.body.bytes;
        let n = reader::fields::field_size(self.body.layout.debug, self.body.layout.word) as usize;
        let Some((header, a)) = read_le(body, Position::START, 4) else {
            return Err(Field::Function);
        };
        let Some((function, b)) = read_le(body, a, n) else {
            return Err(Field::Function);
        };
        let Some((length, at)) = read_le(body, b, n) else {
            return Err(Field::Length);
        };
        let f = Front {
            header,
            function,
            length,
        };
        self.record_rest(at, pointer, f)
    }
}

// Kept: its parameters one by one, as C passes them.
// The record at a place, with its header's pointer size: 0; 11, 61, 62 where it is a header, 64 and the field at fault.
#[unsafe(no_mangle)]
pub extern "C" fn unwind_read_record(
    section: &[u8],
    kind: u64,
    word: u64,
    pointer: u64,
    place: u64,
) -> RecordRead
    ensures result_value { result ≡ read_record_at section.now kind word pointer place }
    ensures taken { RecordTaken section.now kind word pointer place result }
{
    let Some(layout) = reader::layout_of(kind, word) else {
        return refused(Question::Interface, None);
    };
    let Ok(e) = reader::cursor::next_entry(section, layout.debug, place as usize) else {
        return refused(Question::Tiling, None);
    };
    if e.header {
        return refused(Question::Record, None);
    }
    match placed(section, layout, e).record_fields(pointer) {
        Ok(record) => record,
        Err(field) => refused(Question::Fields, Some(field)),
    }
}
