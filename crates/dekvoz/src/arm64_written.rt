// ARM64 unwind data written.
ghost use Rattle.format.specs.Questions.{room_in};
ghost use Rattle.unwind.specs.Entries.{Exports};
ghost use Rattle.arm64.specs.Writer.{arm64_answer};

use unwind::Written;

// The entries and records of a list of functions, as `markers`, `bytes`, `relocations` and `info`.
#[unsafe(no_mangle)]
pub extern "C" fn unwind_arm64(
    functions: &[u64],
    epilogues: &[u64],
    codes: &[u64],
    markers: &mut [u64],
    bytes: &mut [u8],
    relocations: &mut [u64],
    info: &mut [u8],
) -> Written
    ensures { Exports (arm64_answer functions.now epilogues.now codes.now (room_in markers.old bytes.old relocations.old info.old)) result markers.old markers.new bytes.old bytes.new relocations.old relocations.new info.old info.new }
{
    arm64_table::unwind_arm64(
        functions,
        epilogues,
        codes,
        markers,
        bytes,
        relocations,
        info,
    )
}
