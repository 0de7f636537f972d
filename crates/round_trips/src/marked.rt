// A writer, and then the reader with its mark of the shortest spelling.
ghost use Rattle.std.specs.Prelude.{◌≡◌};
ghost use Rattle.format.specs.Coded.{numbered_at};
ghost use Rattle.format.specs.Answers.{marked_numbers, Writes};
ghost use Rattle.format.specs.Questions.{given_of, room_in};
ghost use Rattle.unwind.specs.Entries.{read_numbers};
ghost use Rattle.unwind.specs.Together.{answer_for, reading_for};
ghost use Rattle.round_trips.specs.Marked.{mark_for, Marked};

use lists::output::WrittenAnd;
use unwind::Numbers;

/// A writer, `debug_frame`'s or the other, and then `unwind_read` on exactly what was written, with the writer's kind
/// and word. Where the list was accepted for DWARF output and the reader does not refuse, every LEB number that it read
/// is spelled in as few bytes as can be. Where the writer refused, the reader is handed nothing.
// Kept: the lists one by one, as in `unwind::write_and_read`, whose clauses these are.
pub fn write_and_read_marked(
    debug: bool,
    machine: &[u64],
    format: u64,
    functions: &[u64],
    rows: &[u64],
    landings: &[u64],
    pairs: &[u64],
    places: &mut [u64],
    bytes: &mut [u8],
    relocations: &mut [u64],
    sites: &mut [u8],
    k: u64,
    q: u16,
    p: u64,
) -> WrittenAnd<Numbers>
    ensures writes { Writes (answer_for debug format (given_of machine.now functions.now rows.now landings.now pairs.now) (room_in places.old bytes.old relocations.old sites.old)) (numbered_at result.outcome) places.old places.new bytes.old bytes.new relocations.old relocations.new sites.old sites.new }
    ensures reading_value { read_numbers result.answer ≡ marked_numbers (reading_for debug machine.now (numbered_at result.outcome) bytes.new relocations.new k q p) (mark_for debug machine.now (numbered_at result.outcome) bytes.new relocations.new k p) }
    ensures marked { Marked format (numbered_at result.outcome) result.answer }
{
    let outcome = unwind::write(
        debug,
        machine,
        format,
        functions,
        rows,
        landings,
        pairs,
        places,
        bytes,
        relocations,
        sites,
    );
    let n = unwind::bytes_in(outcome);
    let m = unwind::numbers_in(outcome, relocations.len());
    let written = &bytes[..];
    let related = &relocations[..];
    let answer = unwind::unwind_read(
        &written[..n],
        &related[..m],
        u64::from(debug),
        unwind::word_in(machine),
        k,
        q,
        p,
    );
    WrittenAnd { outcome, answer }
}
