// x64 records written and read back.
#![tactic(auto)]

ghost use Rattle.std.specs.Prelude.{◌≡◌, get_or, length};
ghost use Rattle.format.specs.Coded.{numbered_at};
ghost use Rattle.format.specs.Answers.{Writes};
ghost use Rattle.format.specs.Constants.{coff};
ghost use Rattle.format.specs.Questions.{seh, relaxed_table, given_of, room_in};
ghost use Rattle.format.specs.X64Reader.{read_x64, info_numbers, codes_stored};
ghost use Rattle.x64_reader.specs.Reads.{read_numbers};
ghost use Rattle.x64_back.specs.Given.{ReadBack, RowsBack};

pub mod undo;

use lists::output::WrittenAnd;
use unwind::Format;
use x64_reader::X64Reading;

// Number k of a list; 0 past its end.
fn marker_at(markers: &[u64], k: usize) -> u64
    ensures { result ≡ get_or markers.now k 0 }
{
    markers.get(k).copied().unwrap_or(0)
}

// `seh`, and then the reader on the info that it wrote, at the marker of function k: where the list was accepted and at most one code of
// function k sets the frame register, the reading and the codes are as they were given.
// Kept: the lists one by one, as in the two calls of this body, `x64::seh` and the reader, which C reaches. `Writes` and `ReadBack` name each list,
// five of them before and after the call: lent in one struct they would be 24 paths of fields in these two clauses, with a third that says that the
// struct lends the same lists still, and the body would take it apart for both calls.
pub fn seh_and_read(
    functions: &[u64],
    codes: &[u64],
    markers: &mut [u64],
    bytes: &mut [u8],
    relocations: &mut [u64],
    info: &mut [u8],
    k: u64,
    held: &mut [u64],
) -> WrittenAnd<X64Reading>
    ensures writes { Writes (seh functions.now codes.now (room_in markers.old bytes.old relocations.old info.old)) (numbered_at result.outcome) markers.old markers.new bytes.old bytes.new relocations.old relocations.new info.old info.new }
    ensures answer_value { read_numbers result.answer ≡ info_numbers (read_x64 info.new (get_or markers.new k 0) (length held.old)) }
    ensures held_after { held.new ≡ codes_stored (read_x64 info.new (get_or markers.new k 0) (length held.old)) held.old }
    ensures read_back { ReadBack functions.now codes.now (seh functions.now codes.now (room_in markers.old bytes.old relocations.old info.old)) k (read_numbers result.answer) held.old held.new }
{
    let outcome = x64::seh(functions, codes, markers, bytes, relocations, info);
    let place = marker_at(markers, k as usize);
    let answer = x64_reader::unwind_read_x64(info, place, held);
    WrittenAnd { outcome, answer }
}

// COFF's table by a function's rows, and then the reader on the info that was written, at the marker of function k: where the list was accepted,
// function k's rows have codes, and where at most one of them sets the frame register the reading and the codes are these, a pushed vector
// register as the integer one of its number.
pub fn table_and_read(
    machine: &[u64],
    functions: &[u64],
    rows: &[u64],
    landings: &[u64],
    pairs: &[u64],
    places: &mut [u64],
    bytes: &mut [u8],
    relocations: &mut [u64],
    sites: &mut [u8],
    k: u64,
    held: &mut [u64],
) -> WrittenAnd<X64Reading>
    ensures writes { Writes (relaxed_table coff (given_of machine.now functions.now rows.now landings.now pairs.now) (room_in places.old bytes.old relocations.old sites.old)) (numbered_at result.outcome) places.old places.new bytes.old bytes.new relocations.old relocations.new sites.old sites.new }
    ensures answer_value { read_numbers result.answer ≡ info_numbers (read_x64 sites.new (get_or places.new k 0) (length held.old)) }
    ensures held_after { held.new ≡ codes_stored (read_x64 sites.new (get_or places.new k 0) (length held.old)) held.old }
    ensures read_back { RowsBack (given_of machine.now functions.now rows.now landings.now pairs.now) (relaxed_table coff (given_of machine.now functions.now rows.now landings.now pairs.now) (room_in places.old bytes.old relocations.old sites.old)) k (read_numbers result.answer) held.old held.new }
{
    let outcome = unwind::relaxed_table(
        machine,
        u64::from(Format::Coff),
        functions,
        rows,
        landings,
        pairs,
        places,
        bytes,
        relocations,
        sites,
    );
    let place = marker_at(places, k as usize);
    let answer = x64_reader::unwind_read_x64(sites, place, held);
    WrittenAnd { outcome, answer }
}
