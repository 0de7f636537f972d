// An eh_frame section written, put in place and read.
#![tactic(auto)]

ghost use Rattle.std.specs.Prelude.{◌≡◌, length};
ghost use Rattle.format.specs.Coded.{numbered, numbered_at};
ghost use Rattle.format.specs.Questions.{relaxed_table, given_of, room_in};
ghost use Rattle.format.specs.Answers.{Writes};
ghost use Rattle.apply.specs.Apply.{Applies};
ghost use Rattle.apply_back.specs.Together.{apply_for, placed_count, reading_in_place, MovedBack};

use format::{Counts, Question, Refusal, Rules};
use lists::output::WrittenAnd;
use unwind::Format;

/// What `unwind_apply` answered of a section, and what the reader answered of its bytes in place.
#[derive(Clone, Copy)]
pub struct InPlace {
    pub number: u64,
    pub reading: Result<Rules, Question>,
}

// How many bytes stand in place: as many as were written, or none where the relocations were refused.
#[tactic(auto, unfolding(crate::specs::Together::placed_count, format::specs::Prelude::pick))]
fn placed_count(number: u64, outcome: Result<Option<Counts>, Refusal>) -> usize
    ensures { result ≡ placed_count number (numbered_at outcome) }
{
    if number == 0 {
        return unwind::bytes_in(outcome);
    }
    0
}

/// eh_frame's writer, its relocations applied to exactly what it wrote, at the front of `out`, and then the
/// reader on the bytes in place. Where the list was accepted and its relocations were applied, function k
/// passes the row check, and p is below its new length, the reading is what the function's rows, moved as its
/// labels were, give at p for register q: with relaxing labels or without, whatever the addresses. Where the
/// writer refused, nothing is put in place, and where the relocations were refused, `out` is as it was and
/// the reader is handed nothing.
// Kept: the lists one by one. `Writes`, `apply_for` and `MovedBack` of the theorem in README name each of
// them; in `lists::Lists` and `lists::output::Output` each clause would name a field of another value
// (`to.old.places.now`).
pub fn write_apply_and_read(
    machine: &[u64],
    functions: &[u64],
    rows: &[u64],
    landings: &[u64],
    pairs: &[u64],
    places: &mut [u64],
    bytes: &mut [u8],
    relocations: &mut [u64],
    sites: &mut [u8],
    addresses: &[u64],
    section: u64,
    image: u64,
    out: &mut [u8],
    k: u64,
    q: u16,
    p: u64,
) -> WrittenAnd<InPlace>
    ensures writes { Writes (relaxed_table 0 (given_of machine.now functions.now rows.now landings.now pairs.now) (room_in places.old bytes.old relocations.old sites.old)) (numbered_at result.outcome) places.old places.new bytes.old bytes.new relocations.old relocations.new sites.old sites.new }
    ensures applies { Applies (apply_for (numbered_at result.outcome) bytes.new relocations.new addresses.now section image (length out.old)) result.answer.number out.old out.new }
    ensures reading_value { numbered result.answer.reading ≡ reading_in_place machine.now result.answer.number (numbered_at result.outcome) out.new k q p }
    ensures moved_back { MovedBack (given_of machine.now functions.now rows.now landings.now pairs.now) addresses.now (numbered_at result.outcome) result.answer.number k q p (numbered result.answer.reading) }
{
    let outcome = unwind::relaxed_table(
        machine,
        u64::from(Format::Elf),
        functions,
        rows,
        landings,
        pairs,
        places,
        bytes,
        relocations,
        sites,
    );
    let n = unwind::bytes_in(outcome);
    let m = unwind::numbers_in(outcome, relocations.len());
    let written = &bytes[..];
    let related = &relocations[..];
    let number = apply::unwind_apply(&written[..n], &related[..m], addresses, section, image, out);
    let there = placed_count(number, outcome);
    let placed = &out[..];
    let reading = unwind::read(
        &placed[..there],
        &related[..0],
        0,
        unwind::word_in(machine),
        k,
        q,
        p,
    );
    WrittenAnd {
        outcome,
        answer: InPlace { number, reading },
    }
}
