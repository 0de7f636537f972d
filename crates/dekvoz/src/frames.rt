// The walk over the frames of a recorded fault.
ghost use Rattle.std.specs.Prelude.{◌≡◌, length};
ghost use Rattle.walk.specs.Walk.{by_section, walk_by};
ghost use Rattle.walked.specs.Entry.{numbers_of, chain_numbers, chain_stored, found_answer, found_left};

use walked::Answer;

// The frames of a recorded fault, by the section: 73 for the record file, 11 and 12 for the machine, what a frame is refused by, and 54 last.
// Of an accepted walk the frames, two numbers each, stand at the front of the lent list; on a refusal it is as it was.
#[unsafe(no_mangle)]
pub extern "C" fn unwind_walk(
    machine: &[u64],
    file: &[u8],
    section: &[u8],
    relocations: &[u64],
    kind: u64,
    pc: u64,
    stack: u64,
    functions: &[u64],
    frames: &mut [u64],
) -> Answer
    ensures result_value { numbers_of result ≡ chain_numbers (walk_by (by_section section.now relocations.now kind) machine.now file.now pc stack functions.now (length frames.old)) }
    ensures frames_after { frames.new ≡ chain_stored (walk_by (by_section section.now relocations.now kind) machine.now file.now pc stack functions.now (length frames.old)) frames.old }
{
    walked::unwind_walk(
        machine,
        file,
        section,
        relocations,
        kind,
        pc,
        stack,
        functions,
        frames,
    )
}

/// As `unwind_walk`, and where a frame is refused, the frames that were found up to it: `number` is the refusal's, and
/// `frames` counts those that stand at the front of the lent list, 0 where it has no room for all of them.
// Kept: the C interface passes the lists and numbers one by one.
#[unsafe(no_mangle)]
pub extern "C" fn unwind_walk_found(
    machine: &[u64],
    file: &[u8],
    section: &[u8],
    relocations: &[u64],
    kind: u64,
    pc: u64,
    stack: u64,
    functions: &[u64],
    frames: &mut [u64],
) -> Answer
    ensures result_value { numbers_of result ≡ found_answer (by_section section.now relocations.now kind) machine.now file.now pc stack functions.now (length frames.old) }
    ensures frames_after { frames.new ≡ found_left (by_section section.now relocations.now kind) machine.now file.now pc stack functions.now frames.old }
{
    walked::unwind_walk_found(
        machine,
        file,
        section,
        relocations,
        kind,
        pc,
        stack,
        functions,
        frames,
    )
}
