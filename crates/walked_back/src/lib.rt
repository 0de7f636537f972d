// A writer, and then the walk by the section that it wrote.
#![tactic(auto)]

ghost use Rattle.std.specs.Prelude.{◌≡◌, length};
ghost use Rattle.format.specs.Coded.{numbered_at};
ghost use Rattle.format.specs.Answers.{Writes};
ghost use Rattle.format.specs.Questions.{given_of, room_in};
ghost use Rattle.unwind.specs.Together.{answer_for};
ghost use Rattle.walked.specs.Entry.{numbers_of, chain_numbers, chain_stored};
ghost use Rattle.walked_back.specs.Together.{walk_for, WalksBack};

use lists::output::WrittenAnd;
use walked::Answer;

// A writer, debug_frame's or the other, and then the walk over a recorded fault by exactly what was written, with the
// writer's kind and machine. Where the list was accepted for DWARF output, and each function that the walk visits is one
// of the list, without relaxing labels, passing the row check and of its length, the walk is that by the rows. Where the
// writer refused, the walk is handed nothing.
// Kept: the lists one by one, as `unwind::write` and `unwind_walk` take them. `writes` names the writer's four buffers, `frames_after` and
// `walks_back` the frames, before the call and after it; a struct of the sixteen would be made by the caller and taken apart again for both calls.
pub fn write_and_walk(
    debug: bool,
    machine: &[u64],
    format: u64,
    functions: &[u64],
    rows: &[u64],
    landings: &[u64],
    pairs: &[u64],
    places: &mut [u64],
    bytes: &mut [u8],
    relocations: &mut [u64],
    sites: &mut [u8],
    file: &[u8],
    pc: u64,
    stack: u64,
    placed: &[u64],
    frames: &mut [u64],
) -> WrittenAnd<Answer>
    ensures writes { Writes (answer_for debug format (given_of machine.now functions.now rows.now landings.now pairs.now) (room_in places.old bytes.old relocations.old sites.old)) (numbered_at result.outcome) places.old places.new bytes.old bytes.new relocations.old relocations.new sites.old sites.new }
    ensures answer_value { numbers_of result.answer ≡ chain_numbers (walk_for debug machine.now (numbered_at result.outcome) bytes.new relocations.new file.now pc stack placed.now (length frames.old)) }
    ensures frames_after { frames.new ≡ chain_stored (walk_for debug machine.now (numbered_at result.outcome) bytes.new relocations.new file.now pc stack placed.now (length frames.old)) frames.old }
    ensures walks_back { WalksBack format (given_of machine.now functions.now rows.now landings.now pairs.now) (numbered_at result.outcome) file.now pc stack placed.now frames.old result.answer frames.new }
{
    let outcome = unwind::write(
        debug,
        machine,
        format,
        functions,
        rows,
        landings,
        pairs,
        places,
        bytes,
        relocations,
        sites,
    );
    let n = unwind::bytes_in(outcome);
    let m = unwind::numbers_in(outcome, relocations.len());
    let written = &bytes[..];
    let related = &relocations[..];
    let answer = walked::unwind_walk(
        machine,
        file,
        &written[..n],
        &related[..m],
        u64::from(debug),
        pc,
        stack,
        placed,
        frames,
    );
    WrittenAnd { outcome, answer }
}
