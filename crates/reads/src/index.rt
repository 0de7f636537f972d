// The places of all records and of their headers.
ghost use Rattle.std.specs.Prelude.{◌≡◌, ◌+◌, ◌<◌, ◌≤◌, T, length};
ghost use Rattle.format.specs.Put.{put};
ghost use Rattle.format.specs.Lists.{relocations_of};
ghost use Rattle.format.specs.Questions.{is_some};
ghost use Rattle.format.specs.Reader.{header_place, records, entries};
ghost use Rattle.format.proofs.Asked.{option_of};
ghost use Rattle.reader.specs.Spans.{entry_of, listed, Holds};
ghost use Rattle.reader.specs.Finds.{Searching};
ghost use Rattle.section_check.specs.Places.{Marks};
ghost use Rattle.reads.specs.Places.{header_of};
ghost use Rattle.reads.specs.Index.{place_or, index_of, index_in};
ghost use Rattle.reads.specs.Standing.{stored_as, Skipped, Headed, Stores};

use format::Question;
use reader::entries::Entries;
use reader::records::Records;
use reader::section::{Links, Span};
use section_check::marks::Stretches;

// As many marks as a section has here: half of those of section_check, since a frame above some 32 KiB is compiled wrong (docs/DECISIONS.md, D86).
const MARKS: usize = 1024;

// The numbers of a record in the index: its place, and its header's.
const STRIDE: usize = 2;

// The place of no header.
const NOWHERE: u64 = u64::MAX;

// The number that is stored for a header's place.
#[tactic(auto, unfolding(crate::specs::Standing::stored_as))]
fn place_of(header: Option<usize>) -> u64
    ensures { result ≡ stored_as header }
{
    match header {
        Some(at) => at as u64,
        None => NOWHERE,
    }
}

// How many records there are.
fn count(links: &Links) -> usize
    requires { T (is_some (entries links.now.bytes.now)) }
    ensures { result ≡ length (records links.now.debug (listed (entries links.now.bytes.now))) }
{
    Records::new(links.bytes, links.debug).count()
}

// The relocations in front of the first whose place is at least `place`, from those on that are known to be. A writer's relocations go up, so one pass
// over them serves all records; eh_frame's records do not ask them.
fn skipped(links: &Links, place: u64, from: usize) -> usize
    requires { Skipped links.now.relocations.now place from }
    ensures { Skipped links.now.relocations.now place result }
{
    if !links.debug {
        return from;
    }
    let relocs = links.relocations;
    let n = relocs.len() / relocs::RELOCATION_STRIDE;
    (from..n)
        .find(|i| place <= relocs[relocs::RELOCATION_STRIDE * *i])
        .unwrap_or(n)
}

// Where the header of a record starts, as its second field says or, in debug_frame, that field's relocation.
// Kept: beside the reader's function of this name, which asks all relocations. Here those that were passed are not asked again: with the reader's, the
// index of a debug_frame section is quadratic in its records.
fn header_place(links: &Links, fde: Span, from: usize) -> Option<usize>
    requires { Holds links.now.bytes.now fde × Searching links.now.relocations.now (fde.at + 4) from }
    ensures { result ≡ option_of (header_place links.now.debug (relocations_of links.now.relocations.now) (entry_of links.now.bytes.now fde)) }
{
    if links.debug {
        return reader::location::addend_from(links.relocations, (fde.at + 4) as u64, from);
    }
    links.header_place(fde)
}

// The place of a record's header. Records follow their header, or others of it, so the header that was passed or found last is looked at first; any
// other is searched for from the mark of its stretch on.
fn header_start(
    links: &Links,
    fde: Span,
    from: usize,
    last: Option<usize>,
    stretches: &Stretches<MARKS>,
) -> Option<usize>
    requires { Holds links.now.bytes.now fde × T (is_some (entries links.now.bytes.now)) × Headed links.now.debug (listed (entries links.now.bytes.now)) (stored_as last) × Searching links.now.relocations.now (fde.at + 4) from × Marks links.now.bytes.now stretches.now.marks }
    ensures { (stored_as result ≡ place_or (header_of links.now.debug (relocations_of links.now.relocations.now) (listed (entries links.now.bytes.now)) (entry_of links.now.bytes.now fde))) × Headed links.now.debug (listed (entries links.now.bytes.now)) (stored_as result) }
{
    let place = header_place(links, fde, from)?;
    if fde.at <= place {
        return None;
    }
    if last == Some(place) {
        return last;
    }
    let mark = stretches.before(place);
    let cie = links.header_from(mark, place, fde.at)?;
    Some(cie.at)
}

// Stores the index in a list that has room for it.
fn fill(links: &Links, places: &mut [u64])
    requires { T (is_some (entries links.now.bytes.now)) × (length (index_of links.now.debug (relocations_of links.now.relocations.now) (listed (entries links.now.bytes.now))) ≤ length places.old) }
    ensures { places.new ≡ put places.old 0 (index_of links.now.debug (relocations_of links.now.relocations.now) (listed (entries links.now.bytes.now))) }
{
    let s = links.bytes;
    let mut stretches = Stretches {
        marks: [0; MARKS],
        step: s.len() / MARKS + 1,
    };
    let mut from = 0;
    let mut last = None;
    let mut i = 0;
    // Kept: over all entries, and not the records alone: a header that is passed is marked too, and is looked at first for the records behind it;
    // and i by hand: a header among the entries moves it by none.
    'entries: for entry in Entries::new(s) {
        stretches.mark(entry.at);
        if entry.is_header(s, links.debug) {
            last = Some(entry.at);
            continue 'entries;
        }
        from = skipped(links, (entry.at + 4) as u64, from);
        last = header_start(links, entry, from, last, &stretches);
        places[i] = entry.at as u64;
        places[i + 1] = place_of(last);
        i += STRIDE;
    }
}

// Questions 61 and 54, and the index: how many records there are.
pub fn index_in(links: &Links, places: &mut [u64]) -> Result<usize, Question>
    ensures { Stores (index_in links.now.debug (relocations_of links.now.relocations.now) (length places.old) links.now.bytes.now) result places.old places.new }
{
    if !reader::entries::tiles(links.bytes) {
        return Err(Question::Tiling);
    }
    let n = count(links);
    if places.len() / STRIDE < n {
        return Err(Question::OtherRoom);
    }
    fill(links, places);
    Ok(n)
}
