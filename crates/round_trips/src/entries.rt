// The entries of a section, from one to the next by the reader's cursor.
ghost use Rattle.std.specs.Prelude.{◌≡◌, ◌*◌, ◌≤◌, ◌==◌, length, T};
ghost use Rattle.format.specs.Coded.{numbered, result_of};
ghost use Rattle.format.specs.Put.{put};
ghost use Rattle.format.specs.Questions.{is_some};
ghost use Rattle.format.specs.Reader.{entries};
ghost use Rattle.reader.specs.Spans.{listed};
ghost use Rattle.round_trips.specs.Entries.{entry_stride, counted, all_numbers, entries_listed, ListsEntries};

use format::Question;
use reader::cursor;

// How many numbers an entry has in the list: whether it is a header, its place, and its length.
pub const ENTRY_STRIDE: usize = 3;

// How many entries there are, or question 61.
fn count(section: &[u8], debug: bool) -> Result<usize, Question>
    ensures { numbered result ≡ result_of (counted (entries section.now)) }
{
    let mut cursor = cursor::new(section);
    let mut n = 0;
    while cursor.at < section.len() {
        let entry = cursor::next(cursor, debug)?;
        cursor.at = entry.next;
        n += 1;
    }
    Ok(n)
}

// Stores them in a list that has room for them.
fn fill(section: &[u8], debug: bool, out: &mut [u64])
    requires { T (is_some (entries section.now)) × (entry_stride * length (listed (entries section.now)) ≤ length out.old) }
    ensures { out.new ≡ put out.old 0 (all_numbers debug (listed (entries section.now))) }
{
    let mut cursor = cursor::new(section);
    let mut i = 0;
    while let Ok(entry) = cursor::next(cursor, debug) {
        out[i] = u64::from(entry.header);
        out[i + 1] = entry.place as u64;
        out[i + 2] = entry.length as u64;
        cursor.at = entry.next;
        i += ENTRY_STRIDE;
    }
}

/// The entries of a section of a kind (0 `eh_frame`, 1 `debug_frame`), from one to the next by the reader's cursor:
/// stored at the front of a lent list, three numbers each, and how many they are. They are the entries that the reader
/// means. Questions 11, 61 where they do not tile the section, and 54 where the list is too short; then it is unchanged.
pub fn list_entries(section: &[u8], kind: u64, out: &mut [u64]) -> Result<usize, Question>
    ensures { ListsEntries (kind == 1) (entries_listed section.now kind (length out.old)) result out.old out.new }
{
    if 1 < kind {
        return Err(Question::Interface);
    }
    let debug = kind == 1;
    let n = count(section, debug)?;
    if out.len() / ENTRY_STRIDE < n {
        return Err(Question::OtherRoom);
    }
    fill(section, debug, out);
    Ok(n)
}
