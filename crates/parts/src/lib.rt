// A section taken apart, as numbers for C: what stands at a position, the fields of a header and of a record, and their operations.
#![tactic(auto)]

ghost use Rattle.std.specs.Prelude.{◌≡◌, ◌+◌, ◌≤◌, length};
ghost use Rattle.format.specs.Numbers.{number_of};
ghost use Rattle.reader.specs.Spans.{part};
ghost use Rattle.parts.specs.Entries.{stopped, next_entry};

use crate::body::Placed;
use format::Question;
use reader::cursor::Entry;
use reader::section::{Body, Layout};

pub mod body;
pub mod field;
pub mod headers;
pub mod operation;
pub mod records;

// ---- an entry

// What unwind_next_entry answers.
// Kept: a number beside the fields, since C reads it.
#[repr(C)]
#[derive(Clone, Copy, Default)]
pub struct EntryRead {
    pub number: u64,
    pub header: u64,
    pub place: u64,
    pub length: u64,
    pub next: u64,
}

// No entry; the position stays.
#[tactic(auto, unfolding(crate::specs::Entries::stopped))]
fn stopped(question: Question, at: u64) -> EntryRead
    ensures { result ≡ stopped (number_of question) at }
{
    EntryRead {
        number: question.number(),
        place: at,
        next: at,
        ..EntryRead::default()
    }
}

// An entry's bytes.
pub fn placed<'a>(section: &'a [u8], layout: Layout, e: Entry) -> Placed<'a>
    requires { (e.place + 4 ≤ e.next) × (e.next ≤ length section.now) }
    ensures { (result.base ≡ e.place + 4) × (result.body.bytes.now ≡ part section.now (e.place + 4) e.next) × (result.body.layout ≡ layout) }
{
    let from = e.place + 4;
    let to = e.next;
    Placed {
        body: Body {
            bytes: &section[from..to],
            layout,
        },
        base: from as u64,
    }
}

// The entry at a position: 0; 11, 61 or 62, and the position stays.
#[unsafe(no_mangle)]
pub extern "C" fn unwind_next_entry(section: &[u8], kind: u64, at: u64) -> EntryRead
    ensures { result ≡ next_entry section.now kind at }
{
    if 1 < kind {
        return stopped(Question::Interface, at);
    }
    match reader::cursor::next_entry(section, kind == 1, at as usize) {
        Ok(e) => EntryRead {
            number: 0,
            header: u64::from(e.header),
            place: e.place as u64,
            length: e.length as u64,
            next: e.next as u64,
        },
        Err(question) => stopped(question, at),
    }
}
