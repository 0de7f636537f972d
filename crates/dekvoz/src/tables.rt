// The writers of DWARF and x64 tables, the row check, and the reader by number.
ghost use Rattle.std.specs.Prelude.{[], ◌≡◌};
ghost use Rattle.format.specs.Questions.{relaxed_table, given_of, room_in, relaxed_debug_frame, seh};
ghost use Rattle.unwind.specs.Entries.{Exports, read_numbers};
ghost use Rattle.format.specs.RowCheck.{row_check_at};
ghost use Rattle.format.specs.Answers.{bit, marked_numbers};
ghost use Rattle.format.specs.Reader.{read, shortest_at};

use unwind::{Numbers, Written};

// eh_frame of ELF, and x64 unwind data of COFF.
#[unsafe(no_mangle)]
pub extern "C" fn unwind_relaxed_table(
    machine: &[u64],
    format: u64,
    functions: &[u64],
    rows: &[u64],
    landings: &[u64],
    pairs: &[u64],
    places: &mut [u64],
    bytes: &mut [u8],
    relocations: &mut [u64],
    sites: &mut [u8],
) -> Written
    ensures { Exports (relaxed_table format (given_of machine.now functions.now rows.now landings.now pairs.now) (room_in places.old bytes.old relocations.old sites.old)) result places.old places.new bytes.old bytes.new relocations.old relocations.new sites.old sites.new }
{
    unwind::unwind_relaxed_table(
        machine,
        format,
        functions,
        rows,
        landings,
        pairs,
        places,
        bytes,
        relocations,
        sites,
    )
}

// debug_frame. Landings and personalities are looked at by question 13 alone.
#[unsafe(no_mangle)]
pub extern "C" fn unwind_relaxed_debug_frame(
    machine: &[u64],
    format: u64,
    functions: &[u64],
    rows: &[u64],
    landings: &[u64],
    pairs: &[u64],
    places: &mut [u64],
    bytes: &mut [u8],
    relocations: &mut [u64],
) -> Written
    ensures { Exports (relaxed_debug_frame format (given_of machine.now functions.now rows.now landings.now pairs.now) (room_in places.old bytes.old relocations.old [])) result places.old places.new bytes.old bytes.new relocations.old relocations.new [] [] }
{
    unwind::unwind_relaxed_debug_frame(
        machine,
        format,
        functions,
        rows,
        landings,
        pairs,
        places,
        bytes,
        relocations,
    )
}

// x64 unwind data of direct codes.
#[unsafe(no_mangle)]
pub extern "C" fn unwind_seh(
    functions: &[u64],
    codes: &[u64],
    markers: &mut [u64],
    bytes: &mut [u8],
    relocations: &mut [u64],
    info: &mut [u8],
) -> Written
    ensures { Exports (seh functions.now codes.now (room_in markers.old bytes.old relocations.old info.old)) result markers.old markers.new bytes.old bytes.new relocations.old relocations.new info.old info.new }
{
    unwind::unwind_seh(functions, codes, markers, bytes, relocations, info)
}

// 1 where the rows of function k state rules at each place, else 0; also 0 for k past the list.
#[unsafe(no_mangle)]
pub extern "C" fn unwind_row_check(functions: &[u64], rows: &[u64], k: u64) -> u64
    ensures { result ≡ bit (row_check_at functions.now rows.now k) }
{
    unwind::unwind_row_check(functions, rows, k)
}

// The rules of record k at offset p of its function, for register q.
#[unsafe(no_mangle)]
pub extern "C" fn unwind_read(
    section: &[u8],
    relocations: &[u64],
    kind: u64,
    word: u64,
    k: u64,
    q: u16,
    p: u64,
) -> Numbers
    ensures { read_numbers result ≡ marked_numbers (read section.now relocations.now kind word k q p) (shortest_at section.now relocations.now kind word k p) }
{
    unwind::unwind_read(section, relocations, kind, word, k, q, p)
}
