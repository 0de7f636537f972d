// Call sites written and read back.
#![tactic(auto)]

ghost use Rattle.std.specs.Prelude.{◌≡◌, length};
ghost use Rattle.format.proofs.Asked.{option_of};
ghost use Rattle.format.specs.Lists.{relocations_of};
ghost use Rattle.format.specs.Questions.{relaxed_table, given_of, room_in};
ghost use Rattle.format.specs.Constants.{elf};
ghost use Rattle.format.specs.Coded.{numbered, numbered_at};
ghost use Rattle.format.specs.Answers.{Writes};
ghost use Rattle.call_sites.specs.Reads.{marked_of};
ghost use Rattle.call_sites.specs.Listed.{list_at, sites_stored};
ghost use Rattle.sites_back.specs.Back.{table_place, written_place, WasWritten, site_answer, list_answer, ReadBack, LandingsBack};

use call_sites::{Listed, Site};
use format::{Counts, Question, Refusal};
use lists::output::WrittenAnd;
use reader::{entries, location};
use unwind::Format;

// A record's pointer to call sites stands this far behind its start.
const POINTER_FIELD: usize = 17;

// The addend of the relocation of record k's pointer to call sites, in eh_frame.
fn table_place(section: &[u8], relocations: &[u64], k: u64) -> Option<u64>
    ensures { result ≡ option_of (table_place section.now (relocations_of relocations.now) k) }
{
    if !entries::tiles(section) {
        return None;
    }
    let record = entries::record_span(section, false, k)?;
    let place = location::first_addend(relocations, (record.at + POINTER_FIELD) as u64)?;
    Some(place as u64)
}

// The place of function k's table, by as much of the section and its relocations as was written; one outside all bytes where there is none.
fn written_place(
    outcome: Result<Option<Counts>, Refusal>,
    bytes: &[u8],
    relocations: &[u64],
    k: u64,
) -> u64
    requires { WasWritten (numbered_at outcome) bytes.now relocations.now }
    ensures { result ≡ written_place (numbered_at outcome) bytes.now relocations.now k }
{
    let n = unwind::bytes_in(outcome);
    let m = unwind::numbers_in(outcome, relocations.len());
    table_place(&bytes[..n], &relocations[..m], k).unwrap_or(u64::MAX)
}

// eh_frame's writer, and then the reader of call sites on what it wrote, at the place that the relocation of function k's record names. Where
// the list was accepted and function k has landings whose ends fit 64 bits, the site is the first of them that covers the offset, or
// none where none does, and the table's numbers are spelled shortest.
// Kept: the lists one by one. `Writes` and `ReadBack` of the theorem in README name each of them; in `lists::Lists` and `lists::output::Output`
// each clause would name a field of another value (`to.old.places.now`), and one more would say that the caller's own lists are lent in it
// still (`SameLists`).
pub fn write_and_read_site(
    machine: &[u64],
    functions: &[u64],
    rows: &[u64],
    landings: &[u64],
    pairs: &[u64],
    places: &mut [u64],
    bytes: &mut [u8],
    relocations: &mut [u64],
    sites: &mut [u8],
    k: u64,
    offset: u64,
) -> WrittenAnd<Site>
    ensures writes { Writes (relaxed_table elf (given_of machine.now functions.now rows.now landings.now pairs.now) (room_in places.old bytes.old relocations.old sites.old)) (numbered_at result.outcome) places.old places.new bytes.old bytes.new relocations.old relocations.new sites.old sites.new }
    ensures answer_value { marked_of result.answer ≡ site_answer sites.new (written_place (numbered_at result.outcome) bytes.new relocations.new k) offset }
    ensures read_back { ReadBack (given_of machine.now functions.now rows.now landings.now pairs.now) (relaxed_table elf (given_of machine.now functions.now rows.now landings.now pairs.now) (room_in places.old bytes.old relocations.old sites.old)) k offset (marked_of result.answer) }
{
    let outcome = unwind::relaxed_table(
        machine,
        u64::from(Format::Elf),
        functions,
        rows,
        landings,
        pairs,
        places,
        bytes,
        relocations,
        sites,
    );
    let place = written_place(outcome, bytes, relocations, k);
    let answer = call_sites::unwind_call_site(sites, place, offset);
    WrittenAnd { outcome, answer }
}

// eh_frame's writer, and then all sites of function k's table, read at the place that its record's relocation names into a lent list, three
// numbers each. Where the list was accepted, function k has landings whose ends fit 64 bits and the lent list has room for them, the sites are
// these landings, in order, and the table's numbers are spelled shortest.
// Kept: the lists one by one, as above.
pub fn write_and_list_sites(
    machine: &[u64],
    functions: &[u64],
    rows: &[u64],
    landings: &[u64],
    pairs: &[u64],
    places: &mut [u64],
    bytes: &mut [u8],
    relocations: &mut [u64],
    sites: &mut [u8],
    k: u64,
    held: &mut [u64],
) -> WrittenAnd<Result<Listed, Question>>
    ensures writes { Writes (relaxed_table elf (given_of machine.now functions.now rows.now landings.now pairs.now) (room_in places.old bytes.old relocations.old sites.old)) (numbered_at result.outcome) places.old places.new bytes.old bytes.new relocations.old relocations.new sites.old sites.new }
    ensures answer_value { numbered result.answer ≡ list_answer sites.new (written_place (numbered_at result.outcome) bytes.new relocations.new k) (length held.old) }
    ensures held_after { held.new ≡ sites_stored (list_at sites.new (written_place (numbered_at result.outcome) bytes.new relocations.new k) (length held.old)) held.old }
    ensures landings_back { LandingsBack (given_of machine.now functions.now rows.now landings.now pairs.now) (relaxed_table elf (given_of machine.now functions.now rows.now landings.now pairs.now) (room_in places.old bytes.old relocations.old sites.old)) k (numbered result.answer) held.old held.new }
{
    let outcome = unwind::relaxed_table(
        machine,
        u64::from(Format::Elf),
        functions,
        rows,
        landings,
        pairs,
        places,
        bytes,
        relocations,
        sites,
    );
    let place = written_place(outcome, bytes, relocations, k);
    let answer = call_sites::list_sites(sites, place, held);
    WrittenAnd { outcome, answer }
}
