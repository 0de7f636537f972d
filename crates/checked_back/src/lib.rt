// The writer of eh_frame, and then the check of the section that it wrote.
#![tactic(auto)]

ghost use Rattle.std.specs.Prelude.{◌≡◌};
ghost use Rattle.format.specs.Coded.{numbered_at};
ghost use Rattle.format.specs.Answers.{Writes};
ghost use Rattle.format.specs.Questions.{relaxed_table, given_of, room_in};
ghost use Rattle.checked_back.specs.Together.{check_for, PassesBack};

use lists::output::WrittenAnd;
use section_check::Checked;

// `relaxed_table`, and then the check of exactly what was written, with the machine's word: where the list was accepted for ELF, every
// function passes the row check and none is relaxed, the section passes. Where the writer refused, the check is handed nothing.
// Kept: the lists one by one. `Writes`, `check_for` and `PassesBack` of the theorem in README name each of them; in `lists::Lists` and `lists::output::Output`
// each clause would name a field of another value (`to.old.places.now`), and one more would say that the caller's own lists are lent in it
// still (`SameLists`).
pub fn write_and_check(
    machine: &[u64],
    format: u64,
    functions: &[u64],
    rows: &[u64],
    landings: &[u64],
    pairs: &[u64],
    places: &mut [u64],
    bytes: &mut [u8],
    relocations: &mut [u64],
    sites: &mut [u8],
) -> WrittenAnd<Checked>
    ensures writes { Writes (relaxed_table format (given_of machine.now functions.now rows.now landings.now pairs.now) (room_in places.old bytes.old relocations.old sites.old)) (numbered_at result.outcome) places.old places.new bytes.old bytes.new relocations.old relocations.new sites.old sites.new }
    ensures checked_value { result.answer ≡ check_for machine.now (numbered_at result.outcome) bytes.new }
    ensures passes_back { PassesBack format (given_of machine.now functions.now rows.now landings.now pairs.now) (numbered_at result.outcome) result.answer }
{
    let outcome = unwind::relaxed_table(
        machine,
        format,
        functions,
        rows,
        landings,
        pairs,
        places,
        bytes,
        relocations,
        sites,
    );
    let n = unwind::bytes_in(outcome);
    let word = unwind::word_in(machine);
    let written = &bytes[..];
    let answer = section_check::unwind_check_section(&written[..n], word);
    WrittenAnd { outcome, answer }
}
