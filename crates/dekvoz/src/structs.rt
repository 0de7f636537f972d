// The writers over lists of structs.
ghost use Rattle.std.specs.Prelude.{◌≡◌, []};
ghost use Rattle.struct_entries.specs.Structs.{row_numbers, numbers_of, function_numbers};
ghost use Rattle.struct_entries.specs.Packed.{Packs};
ghost use Rattle.format.specs.Answers.{bit};
ghost use Rattle.struct_entries.specs.Checks.{check_of};
ghost use Rattle.format.specs.Questions.{room_in};
ghost use Rattle.unwind.specs.Entries.{Exports};
ghost use Rattle.struct_entries.specs.Entries.{relaxed_table_of, relaxed_debug_frame_of};

use struct_entries::{Function, RowAt};
use unwind::Written;

// The numbers of a list at the front of a lent list, as the entries over numbers take them: 0, or 54 where they do not fit.
#[unsafe(no_mangle)]
pub extern "C" fn unwind_pack_rows(rows: &[RowAt], numbers: &mut [u64]) -> u64
    ensures { Packs (numbers_of row_numbers rows.now) numbers.old numbers.new result }
{
    struct_entries::unwind_pack_rows(rows, numbers)
}

// The same of functions.
#[unsafe(no_mangle)]
pub extern "C" fn unwind_pack_functions(functions: &[Function], numbers: &mut [u64]) -> u64
    ensures { Packs (numbers_of function_numbers functions.now) numbers.old numbers.new result }
{
    struct_entries::unwind_pack_functions(functions, numbers)
}

// Whether the rows state rules at each place, 1 or 0, as unwind_row_check says of the numbers that they mean.
#[unsafe(no_mangle)]
pub extern "C" fn unwind_row_check_of(simple: u64, rows: &[RowAt]) -> u64
    ensures { result ≡ bit (check_of simple rows.now) }
{
    struct_entries::unwind_row_check_of(simple, rows)
}

// unwind_relaxed_table over lists of structs; landings and pairs are lists of numbers. `numbers` is room for 18 numbers a function and 4 a row, all
// zero, else 54, asked behind 11 and 12. It goes back as it came.
#[unsafe(no_mangle)]
pub extern "C" fn unwind_relaxed_table_of(
    machine: &[u64],
    format: u64,
    functions: &[Function],
    rows: &[RowAt],
    landings: &[u64],
    pairs: &[u64],
    numbers: &mut [u64],
    places: &mut [u64],
    bytes: &mut [u8],
    relocations: &mut [u64],
    sites: &mut [u8],
) -> Written
    ensures { Exports (relaxed_table_of format machine.now numbers.old functions.now rows.now landings.now pairs.now (room_in places.old bytes.old relocations.old sites.old)) result places.old places.new bytes.old bytes.new relocations.old relocations.new sites.old sites.new × (numbers.new ≡ numbers.old) }
{
    struct_entries::unwind_relaxed_table_of(
        machine,
        format,
        functions,
        rows,
        landings,
        pairs,
        numbers,
        places,
        bytes,
        relocations,
        sites,
    )
}

// unwind_relaxed_debug_frame in the same way.
#[unsafe(no_mangle)]
pub extern "C" fn unwind_relaxed_debug_frame_of(
    machine: &[u64],
    format: u64,
    functions: &[Function],
    rows: &[RowAt],
    landings: &[u64],
    pairs: &[u64],
    numbers: &mut [u64],
    places: &mut [u64],
    bytes: &mut [u8],
    relocations: &mut [u64],
) -> Written
    ensures { Exports (relaxed_debug_frame_of format machine.now numbers.old functions.now rows.now landings.now pairs.now (room_in places.old bytes.old relocations.old [])) result places.old places.new bytes.old bytes.new relocations.old relocations.new [] [] × (numbers.new ≡ numbers.old) }
{
    struct_entries::unwind_relaxed_debug_frame_of(
        machine,
        format,
        functions,
        rows,
        landings,
        pairs,
        numbers,
        places,
        bytes,
        relocations,
    )
}
