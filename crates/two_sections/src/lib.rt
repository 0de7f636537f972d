// One list written as eh_frame and as debug_frame, and both read: they say the same.
#![tactic(auto)]

ghost use Rattle.std.specs.Prelude.{◌≡◌, [], true, false};
ghost use Rattle.format.specs.Coded.{numbered, numbered_at};
ghost use Rattle.format.specs.Answers.{Writes};
ghost use Rattle.format.specs.Questions.{given_of, room_in, relaxed_table, relaxed_debug_frame};
ghost use Rattle.unwind.specs.Together.{reading_for};
ghost use Rattle.two_sections.specs.Story.{OneStory};

use format::{Question, Rules};
use lists::output::WrittenAnd;
use unwind::Format;

// What the writers of both sections answered, and what the reader answered of each.
#[derive(Clone, Copy)]
pub struct TwoSections {
    pub eh: WrittenAnd<Result<Rules, Question>>,
    pub debug: WrittenAnd<Result<Rules, Question>>,
}

// The list as ELF's eh_frame and as debug_frame, and the reader on exactly what was written of each: where both were accepted, and function
// k has no relaxing labels and p is below its length, both readings are the same.
// Kept: the lists one by one. `Writes`, `reading_for` and `OneStory` of the theorem in README name each of them; in `lists::Lists` and two `lists::output::Output`
// each clause would name a field of another value (`to.old.places.now`), and two more would say that the caller's own lists are lent in it
// still (`SameLists`).
pub fn write_two_and_read(
    machine: &[u64],
    functions: &[u64],
    rows: &[u64],
    landings: &[u64],
    pairs: &[u64],
    places: &mut [u64],
    bytes: &mut [u8],
    relocations: &mut [u64],
    sites: &mut [u8],
    debug_places: &mut [u64],
    debug_bytes: &mut [u8],
    debug_relocations: &mut [u64],
    k: u64,
    q: u16,
    p: u64,
) -> TwoSections
    ensures writes { Writes (relaxed_table 0 (given_of machine.now functions.now rows.now landings.now pairs.now) (room_in places.old bytes.old relocations.old sites.old)) (numbered_at result.eh.outcome) places.old places.new bytes.old bytes.new relocations.old relocations.new sites.old sites.new }
    ensures writes_2 { Writes (relaxed_debug_frame 0 (given_of machine.now functions.now rows.now landings.now pairs.now) (room_in debug_places.old debug_bytes.old debug_relocations.old [])) (numbered_at result.debug.outcome) debug_places.old debug_places.new debug_bytes.old debug_bytes.new debug_relocations.old debug_relocations.new [] [] }
    ensures of_eh_value { numbered result.eh.answer ≡ reading_for false machine.now (numbered_at result.eh.outcome) bytes.new relocations.new k q p }
    ensures of_debug_value { numbered result.debug.answer ≡ reading_for true machine.now (numbered_at result.debug.outcome) debug_bytes.new debug_relocations.new k q p }
    ensures one_story { OneStory (given_of machine.now functions.now rows.now landings.now pairs.now) (numbered_at result.eh.outcome) (numbered_at result.debug.outcome) k p (numbered result.eh.answer) (numbered result.debug.answer) }
{
    let elf = u64::from(Format::Elf);
    let eh = unwind::write_and_read(
        false,
        machine,
        elf,
        functions,
        rows,
        landings,
        pairs,
        places,
        bytes,
        relocations,
        sites,
        k,
        q,
        p,
    );
    let debug = unwind::write_and_read(
        true,
        machine,
        elf,
        functions,
        rows,
        landings,
        pairs,
        debug_places,
        debug_bytes,
        debug_relocations,
        sites,
        k,
        q,
        p,
    );
    TwoSections { eh, debug }
}
