// Call sites read: the table at a place of the exception bytes, and the first site of it that covers a code offset (Itanium C++ ABI, "LSDA"), which
// rucc-asm/src/unwind.rs of tamnd/rucc does not have.
#![tactic(auto)]

ghost use Rattle.std.specs.Prelude.{◌≡◌, ◌≤◌, ◌+◌, ◌&&◌, length};
ghost use Rattle.format.specs.Coded.{numbered};
ghost use Rattle.format.specs.Put.{put};
ghost use Rattle.format.specs.Shortest.{every_short};
ghost use Rattle.format.specs.CallSiteReader.{covers, head_ok, read_sites, site_at, sites_short, marked_site};
ghost use Rattle.call_sites.specs.Listed.{site_stride, landing_numbers, list_at, sites_stored, listed_of, counted_of, stored_of, HasRoom};
ghost use Rattle.call_sites.specs.Reads.{landing_of, EntrySays, TableSays, read_of, marked_start, first_covering, with_mark, found_numbers, marked_of};

use format::Question;
use numbers::encodings;
use operations::fields::{Position, read_uleb};

// ---- one entry

// A site in a list of numbers: start, length and pad.
pub const SITE_STRIDE: usize = 3;

#[derive(Clone, Copy)]
pub struct Entry {
    pub start: u64,
    pub length: u64,
    pub pad: u64,
}

// The entry at a position, and the position past it. Its action, a number as well, is not looked at.
fn entry_at(s: &[u8], at: Position) -> Option<(Entry, Position)>
    ensures { EntrySays s.now at result }
{
    let (start, sized) = read_uleb(s, at)?;
    let (length, padded) = read_uleb(s, sized)?;
    let (pad, acting) = read_uleb(s, padded)?;
    let (_, past) = read_uleb(s, acting)?;
    if u64::MAX - start < length {
        return None;
    }
    Some((Entry { start, length, pad }, past))
}

impl Entry {
    // Kept: the same line stands in walk (`holds`) and in reads (`record_holds`), which meet a definition each, over numbers, a struct and an Option of two
    // numbers. One function would need a definition of its own, in a crate below all three, and a law to each of the three.
    fn covers(self, offset: u64) -> bool
        ensures { result ≡ covers offset (landing_of self) }
    {
        self.start <= offset && offset - self.start < self.length
    }

    fn put(self, held: &mut [u64], at: usize)
        requires { at + site_stride ≤ length held.old }
        ensures { held.new ≡ put held.old at (landing_numbers (landing_of self)) }
    {
        let numbers = [self.start, self.length, self.pad];
        held[at..at + SITE_STRIDE].copy_from_slice(&numbers);
    }
}

// ---- a table

fn head_ok(base: u8, types: u8, encoding: u8) -> bool
    ensures { result ≡ head_ok base types encoding }
{
    base == encodings::DW_EH_PE_OMIT
        && types == encodings::DW_EH_PE_OMIT
        && encoding == encodings::DW_EH_PE_ULEB128
}

// The bytes of a table's entries, and whether its length in front of them is spelled shortest.
#[derive(Clone, Copy)]
pub struct Table<'a> {
    pub entries: &'a [u8],
    pub shortest: bool,
}

fn table_at(sites: &[u8], place: u64) -> Option<Table>
    ensures { TableSays sites.now place result }
{
    let size = sites.len();
    let p = place as usize;
    if size < 3 || size - 3 < p {
        return None;
    }
    if !head_ok(sites[p], sites[p + 1], sites[p + 2]) {
        return None;
    }
    let head = Position::from(p + 3);
    let (n, counted) = read_uleb(sites, head)?;
    let at = counted.at;
    if size - at < n as usize {
        return None;
    }
    Some(Table {
        entries: &sites[at..at + n as usize],
        shortest: counted.shortest,
    })
}

// A table's entries from a position on. One that cannot be read is None, and the last.
#[derive(Drop)]
struct Entries<'a> {
    bytes: &'a [u8],
    at: Position,
}

impl Iterator for Entries<'_> {
    ghost use Rattle.std.specs.Prelude.{◌-◌, length};
    ghost use Rattle.std.specs.Iterator.{at_most};
    ghost use Rattle.call_sites.specs.Reads.{GivesEntry};

    // The entry and the position past it.
    type Item = Option<(Entry, Position)>;

    ghost next_gives = { GivesEntry };

    ghost remaining = { λ s. at_most (length s.bytes.now - s.at.at) };

    fn next(&mut self) -> Option<Option<(Entry, Position)>> {
        if self.bytes.len() <= self.at.at {
            return None;
        }
        let Some((entry, past)) = entry_at(self.bytes, self.at) else {
            self.at.at = self.bytes.len();
            return Some(None);
        };
        self.at = past;
        Some(Some((entry, past)))
    }
}

// What a table has for an offset: the first entry that covers it, and whether every number of the table is spelled shortest.
#[derive(Clone, Copy)]
pub struct Found {
    pub entry: Option<Entry>,
    pub shortest: bool,
}

// How many entries a table has, and whether every number of it is spelled shortest.
#[derive(Clone, Copy)]
pub struct Listed {
    pub sites: u64,
    pub shortest: bool,
}

impl Table<'_> {
    fn entries(&self) -> Entries
        ensures { (result.bytes.now ≡ self.now.entries.now) × (result.at ≡ marked_start self.now.shortest) }
    {
        Entries {
            bytes: self.entries,
            at: Position {
                at: 0,
                shortest: self.shortest,
            },
        }
    }

    // Every entry is read, also behind the one that is found.
    fn search(&self, offset: u64) -> Result<Found, Question>
        ensures { numbered result ≡ with_mark (first_covering offset self.now.entries.now) (self.now.shortest && every_short self.now.entries.now) }
    {
        let mut found = None;
        let mut shortest = self.shortest;
        for read in self.entries() {
            let Some((entry, past)) = read else {
                return Err(Question::CallSites);
            };
            found = found.or(entry.covers(offset).then_some(entry));
            shortest = past.shortest;
        }
        Ok(Found {
            entry: found,
            shortest,
        })
    }

    fn count(&self) -> Result<Listed, Question>
        ensures { numbered result ≡ counted_of (read_sites self.now.entries.now) (self.now.shortest && every_short self.now.entries.now) }
    {
        let mut sites = 0;
        let mut shortest = self.shortest;
        for read in self.entries() {
            let Some((_, past)) = read else {
                return Err(Question::CallSites);
            };
            sites += 1;
            shortest = past.shortest;
        }
        Ok(Listed { sites, shortest })
    }

    // The entries, three numbers each, at the front of a list that has room for them.
    fn store(&self, held: &mut [u64])
        requires { HasRoom (read_sites self.now.entries.now) held.old }
        ensures { held.new ≡ stored_of (read_sites self.now.entries.now) held.old }
    {
        let mut at = 0;
        for read in self.entries() {
            let Some((entry, _)) = read else {
                return;
            };
            entry.put(held, at);
            at += SITE_STRIDE;
        }
    }
}

// What the table at a place has for an offset.
fn look_up(sites: &[u8], place: u64, offset: u64) -> Result<Found, Question>
    ensures { numbered result ≡ with_mark (read_of (site_at sites.now place offset)) (sites_short sites.now place) }
{
    // Kept: `let .. else`, here and on the entries (D121): each is asked once, and the refusal is named beside it, as the specification has it
    // for LEB, operation and header answers.
    let Some(table) = table_at(sites, place) else {
        return Err(Question::CallSiteTable);
    };
    table.search(offset)
}

// All sites of the table at a place of the exception bytes, in table order, three numbers each (start, length and pad) at the front of a lent
// list: how many, and whether every number of the table is spelled shortest. It refuses by 71, 72 and 54, and then the list is unchanged;
// else what lies past the sites is as it was.
pub fn list_sites(sites: &[u8], place: u64, held: &mut [u64]) -> Result<Listed, Question>
    ensures answer_value { numbered result ≡ listed_of (list_at sites.now place (length held.old)) (sites_short sites.now place) }
    ensures held_after { held.new ≡ sites_stored (list_at sites.now place (length held.old)) held.old }
{
    let Some(table) = table_at(sites, place) else {
        return Err(Question::CallSiteTable);
    };
    let listed = table.count()?;
    if ((held.len() / SITE_STRIDE) as u64) < listed.sites {
        return Err(Question::OtherRoom);
    }
    table.store(held);
    Ok(listed)
}

// ---- the answer

// What unwind_call_site answers.
// Kept: a number, and 0 or 1 for what may be missing, since C reads it.
#[repr(C)]
#[derive(Clone, Copy, Default)]
pub struct Site {
    pub number: u64,
    pub found: u64,
    pub start: u64,
    pub length: u64,
    pub pad: u64,
    pub shortest: u64,
}

// A refusal has no mark.
impl From<Result<Found, Question>> for Site {
    ghost from_gives = { λ r s. marked_of s ≡ found_numbers (numbered r) };

    #[tactic(auto, unfolding(crate::specs::Reads::answer_of, format::specs::Answers::bit))]
    fn from(read: Result<Found, Question>) -> Site {
        match read {
            Err(question) => Site {
                number: question.number(),
                ..Site::default()
            },
            Ok(
                Found {
                    entry: None,
                    shortest,
                },
            ) => Site {
                shortest: u64::from(shortest),
                ..Site::default()
            },
            Ok(
                Found {
                    entry: Some(entry),
                    shortest,
                },
            ) => Site {
                number: 0,
                found: 1,
                start: entry.start,
                length: entry.length,
                pad: entry.pad,
                shortest: u64::from(shortest),
            },
        }
    }
}

// The first site of the table at a place of the exception bytes that covers a code offset: its start, length and pad, or that no entry
// covers it; and whether every number of the table is spelled shortest. Every entry is read before the answer. It refuses by 71 and 72.
#[unsafe(no_mangle)]
pub extern "C" fn unwind_call_site(sites: &[u8], place: u64, offset: u64) -> Site
    ensures { marked_of result ≡ marked_site (site_at sites.now place offset) (sites_short sites.now place) }
{
    Site::from(look_up(sites, place, offset))
}
