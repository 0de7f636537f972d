// The reader's cursor: a section and a position in one record, and the entry that stands there.
ghost use Rattle.std.specs.Prelude.{◌≡◌};
ghost use Rattle.format.specs.Coded.{numbered, result_of};
ghost use Rattle.reader.specs.Listing.{entry_at};

use crate::entries;
use crate::section::Span;
use format::Question;

// An entry: whether it is a header, where it stands, the value of its length field and where the next one stands.
#[derive(Clone, Copy)]
pub struct Entry {
    pub header: bool,
    pub place: usize,
    pub length: usize,
    pub next: usize,
}

// The entry at a position of a slice. Question 61 says that no entry fits the rest of the section, 62 that the section ends here.
// On a refusal a position stays what it was.
pub fn entry_at(section: &[u8], debug: bool, at: usize) -> Result<Entry, Question>
    ensures { numbered result ≡ result_of (entry_at debug section.now at) }
{
    if section.len() <= at {
        return Err(Question::Record);
    }
    let Some(end) = entries::entry_end(section, at) else {
        return Err(Question::Tiling);
    };
    let header = Span { at, end }.is_header(section, debug);
    Ok(Entry {
        header,
        place: at,
        length: end - (at + 4),
        next: end,
    })
}

// ---- the cursor

// A section and a position in it, for whoever goes over a section's entries. The work is `entry_at`'s.
#[derive(Clone, Copy)]
pub struct Cursor<'a> {
    pub section: &'a [u8],
    pub at: usize,
}

// At the first entry.
pub fn new<'a>(section: &'a [u8]) -> Cursor<'a>
    ensures { (result.section ≡ section.entry) × (result.at ≡ 0) }
{
    Cursor { section, at: 0 }
}

// What stands at the cursor; the answer says where the next entry stands.
// Kept: a struct of section and position with thin functions over one core is a form that document 01 names (docs/DECISIONS.md). `entry_at` is
// the core, `next` is it of a cursor and `next_entry` of a slice (parts calls it): all three are public, and public functions keep their names.
pub fn next<'a>(c: Cursor<'a>, debug: bool) -> Result<Entry, Question>
    ensures { numbered result ≡ result_of (entry_at debug c.entry.section.now c.entry.at) }
{
    entry_at(c.section, debug, c.at)
}

// What stands at a position of a section.
pub fn next_entry(section: &[u8], debug: bool, at: usize) -> Result<Entry, Question>
    ensures { numbered result ≡ result_of (entry_at debug section.now at) }
{
    entry_at(section, debug, at)
}
