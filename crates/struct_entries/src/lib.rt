// The entries over lists of structs, and their C interface (include/dekvoz.h): functions and rows as structs, for callers that have them so. Ported
// from rucc-asm/src/unwind.rs (Extent, Rows) of tamnd/rucc, changed: see NOTICE.
#![tactic(auto)]

ghost use Rattle.std.specs.Prelude.{◌≡◌, ℕ, List, false, [], ◌+◌, ◌*◌, ◌≤◌, ◌<◌, length, leb, eqb};
ghost use Rattle.std.specs.Bool.{then_some};
ghost use Rattle.format.specs.Put.{put};
ghost use Rattle.format.specs.Prelude.{all, pick};
ghost use Rattle.format.specs.Machine.{machine_ok, machine_of};
ghost use Rattle.format.specs.Lists.{function_stride, row_stride, row_ok_at, row_at};
ghost use Rattle.format.specs.Coded.{numbered_at};
ghost use Rattle.format.specs.Questions.{room_in, empty};
ghost use Rattle.format.specs.Answers.{bit, outcome_of};
ghost use Rattle.format.specs.declared.question.Question.TheVariants as question;
ghost use Rattle.unwind.specs.Entries.{Exports};
ghost use Rattle.unwind.specs.Together.{answer_for};
ghost use Rattle.struct_entries.specs.Structs.{row_numbers, function_numbers, numbers_of, row_length, function_length};
ghost use Rattle.struct_entries.specs.Packed.{stored, stored_all, Packs};
ghost use Rattle.struct_entries.specs.Checks.{check_of};
ghost use Rattle.struct_entries.specs.Entries.{needed, is_zero, ready_for, cleared, packed, once_ready, table_is_empty, table_asks, debug_frame_is_empty, debug_frame_asks, numbers_in, relaxed_table_of, relaxed_debug_frame_of};

use format::{Counts, Question, Refusal, Row};
use lists::FUNCTION_STRIDE;
use rows::ROW_STRIDE;
use unwind::{Format, Written};

// A row of a function: its offset, its kind (0 to 10, in document 01's order and then W-207's) and its operands; one that the kind does not have
// is 0. The value of an InRegister is the other register, 0 to 65,535.
#[repr(C)]
#[derive(Clone, Copy)]
pub struct RowAt {
    pub offset: u64,
    pub kind: u8,
    pub register: u16,
    pub value: i32,
}

// A function: its rows, landings and pairs are ranges of the lists beside it. A mark is 0 or 1; another number is question 13.
#[repr(C)]
#[derive(Clone, Copy)]
pub struct Function {
    pub symbol: u64,
    pub length: u64,
    pub rows_at: u64,
    pub rows: u64,
    pub landings_at: u64,
    pub landings: u64,
    pub simple: u8,
    pub signal: u8,
    pub personality: u8,
    pub encoding: u8,
    pub routine: u64,
    pub lsda: u8,
    pub lsda_encoding: u8,
    pub lsda_symbol: u64,
    pub relaxed: u8,
    pub end: u64,
    pub pairs_at: u64,
    pub pairs: u64,
}

// ---- the numbers that a struct means

// A row's four.
fn row_numbers(x: RowAt) -> [u64; ROW_STRIDE]
    ensures { result ≡ row_numbers x }
{
    [
        x.offset,
        u64::from(x.kind),
        u64::from(x.register),
        u64::from(x.value.cast_unsigned()),
    ]
}

// A function's eighteen.
fn function_numbers(x: Function) -> [u64; FUNCTION_STRIDE]
    ensures { result ≡ function_numbers x }
{
    [
        x.symbol,
        x.length,
        x.rows_at,
        x.rows,
        x.landings_at,
        x.landings,
        u64::from(x.simple),
        u64::from(x.signal),
        u64::from(x.personality),
        u64::from(x.encoding),
        x.routine,
        u64::from(x.lsda),
        u64::from(x.lsda_encoding),
        x.lsda_symbol,
        u64::from(x.relaxed),
        x.end,
        x.pairs_at,
        x.pairs,
    ]
}

// ---- records stored where they fit

// Whether `count` records of `stride` numbers fit a list of `room` numbers.
fn fits(count: usize, stride: usize, room: usize) -> bool
    ensures { result ≡ leb (stride * count) room }
{
    if stride == 0 {
        return true;
    }
    count <= room / stride
}

// Whether record i of those from `at` on fits a list of `room` numbers.
fn has_room(at: usize, i: usize, stride: usize, room: usize) -> bool
    ensures { result ≡ leb (at + stride * i + stride) room }
{
    if room < at {
        return false;
    }
    if !fits(i, stride, room - at) {
        return false;
    }
    stride <= room - at - stride * i
}

// Record i of those that are stored from `at` on, where it fits.
// Kept: it asks for room itself, though who packs has asked: `stored` has the test in it, and says of one record what it says of all.
fn put_record(numbers: &mut [u64], at: usize, i: usize, ns: &[u64])
    ensures { numbers.new ≡ stored numbers.old (at + length ns.now * i) ns.now }
{
    let n = ns.len();
    if !has_room(at, i, n, numbers.len()) {
        return;
    }
    let p = at + n * i;
    numbers[p..p + n].copy_from_slice(ns);
}

// A struct that means a record of numbers.
trait Record: Copy {
    // How many numbers it means.
    const STRIDE: usize;

    ghost STRIDE: { ℕ };

    ghost meaning: { Self → List ℕ };

    // Its numbers as record i of those that are stored from `at` on, where they fit.
    fn put(self, numbers: &mut [u64], at: usize, i: usize)
        ensures { numbers.new ≡ stored numbers.old (at + STRIDE * i) (meaning self) };

    ghost even: { (x : Self) → length (meaning x) ≡ STRIDE };
}

impl Record for RowAt {
    const STRIDE: usize = ROW_STRIDE;

    ghost STRIDE = { row_stride };

    ghost meaning = { row_numbers };

    ghost even = { row_length };

    fn put(self, numbers: &mut [u64], at: usize, i: usize) {
        put_record(numbers, at, i, &row_numbers(self));
    }
}

impl Record for Function {
    const STRIDE: usize = FUNCTION_STRIDE;

    ghost STRIDE = { function_stride };

    ghost meaning = { function_numbers };

    ghost even = { function_length };

    fn put(self, numbers: &mut [u64], at: usize, i: usize) {
        put_record(numbers, at, i, &function_numbers(self));
    }
}

// The structs of a list, one after the other from `at` on, each where it fits.
fn put_all<R: Record>(records: &[R], numbers: &mut [u64], at: usize)
    ensures { numbers.new ≡ stored_all R.meaning numbers.old at records.now }
{
    for (i, x) in records.iter().enumerate() {
        x.put(numbers, at, i);
    }
}

// Those of a list at the front of a lent list of numbers: 0, or 54 where they do not fit.
fn pack_front<R: Record>(records: &[R], numbers: &mut [u64]) -> u64
    ensures { Packs (numbers_of R.meaning records.now) numbers.old numbers.new result }
{
    if !fits(records.len(), R::STRIDE, numbers.len()) {
        return Question::OtherRoom.number();
    }
    put_all(records, numbers, 0);
    0
}

// ---- the row check

// Struct i as a row and its offset, where it is one.
fn row_in(rows: &[RowAt], i: usize) -> Option<(u64, Row)>
    requires { i < length rows.now }
    ensures { result ≡ then_some (row_ok_at (numbers_of row_numbers rows.now) i) (row_at (numbers_of row_numbers rows.now) i) }
{
    rules::row_in(&row_numbers(rows[i]), 0)
}

// All rows of a function. A simple mark above 1 is a no.
fn rows_checked(simple: u64, rows: &[RowAt]) -> bool
    ensures { result ≡ check_of simple rows.now }
{
    if 1 < simple {
        return false;
    }
    rules::rows_check(
        simple != 0,
        0,
        rows.len(),
        |i|
            requires { i < length rows.now }
            ensures { result ≡ then_some (row_ok_at (numbers_of row_numbers rows.entry.now) i) (row_at (numbers_of row_numbers rows.entry.now) i) }
        { row_in(rows, i) },
    )
}

// ---- the lent list of numbers

// Whether a list of n numbers holds so many structs.
fn long_enough(n: usize, functions: usize, rows: usize) -> bool
    ensures { result ≡ leb (needed functions rows) n }
{
    if n / FUNCTION_STRIDE < functions {
        return false;
    }
    rows <= (n - FUNCTION_STRIDE * functions) / ROW_STRIDE
}

fn all_zero(numbers: &[u64]) -> bool
    ensures { result ≡ all is_zero numbers.now }
{
    numbers.iter().all(|x| *x == 0)
}

// Whether the list is long enough for so many structs, and all zero so far.
fn ready(numbers: &[u64], functions: usize, rows: usize) -> bool
    ensures { result ≡ ready_for numbers.now functions rows }
{
    if !long_enough(numbers.len(), functions, rows) {
        return false;
    }
    all_zero(&numbers[..FUNCTION_STRIDE * functions + ROW_STRIDE * rows])
}

// The first n numbers are 0 again.
fn clear(numbers: &mut [u64], n: usize)
    requires { n ≤ length numbers.old }
    ensures { numbers.new ≡ cleared numbers.old n }
{
    numbers[..n].fill(0);
}

// ---- the writers, on the two lists that stand in the lent one

// What the entries are given beside the structs, and how many functions and rows those are.
#[derive(Clone, Copy)]
struct Given<'a> {
    machine: &'a [u64],
    format: u64,
    landings: &'a [u64],
    pairs: &'a [u64],
    functions: usize,
    rows: usize,
}

// The table of ELF and of COFF or, for `debug`, debug_frame, of the lists that stand in the lent one, which is cleared then.
// Kept: the lent lists one by one. `Exports` names each before and after; in `lists::output::Output` each clause would name a field of another value, and one
// more would say that the caller's own lists are lent in it still (D122). `debug` is a bool, as `answer_for` has it.
fn packed(
    debug: bool,
    x: &Given,
    numbers: &mut [u64],
    places: &mut [u64],
    bytes: &mut [u8],
    relocations: &mut [u64],
    sites: &mut [u8],
) -> Written
    requires { needed x.now.functions x.now.rows ≤ length numbers.old }
    ensures exports { Exports (answer_for debug x.now.format (packed x.now.machine.now numbers.old x.now.functions x.now.rows x.now.landings.now x.now.pairs.now) (room_in places.old bytes.old relocations.old sites.old)) result places.old places.new bytes.old bytes.new relocations.old relocations.new sites.old sites.new }
    ensures numbers_after { numbers.new ≡ cleared numbers.old (needed x.now.functions x.now.rows) }
{
    let a = FUNCTION_STRIDE * x.functions;
    let b = a + ROW_STRIDE * x.rows;
    let t = &numbers[..];
    let outcome = unwind::write(
        debug,
        x.machine,
        x.format,
        &t[..a],
        &t[a..b],
        x.landings,
        x.pairs,
        places,
        bytes,
        relocations,
        sites,
    );
    clear(numbers, b);
    Written::from(outcome)
}

// What is asked of ELF's machine, and then of the list that is not ready: 11, or 54.
fn elf_asks(machine: &[u64]) -> Question
    ensures { result ≡ pick (machine_ok machine.now) question.OtherRoom question.Interface }
{
    if !lists::machine_ok(machine) {
        return Question::Interface;
    }
    Question::OtherRoom
}

// 12 of COFF's word stands between them.
// Kept: two tests. By `lists::read_machine` it is a match of three arms, one of them with a guard on the word, and the tests stay in the clause.
fn coff_asks(machine: &[u64]) -> Question
    ensures { result ≡ pick (machine_ok machine.now) (pick (eqb (machine_of machine.now).word 8) question.OtherRoom question.X64Word) question.Interface }
{
    if !lists::machine_ok(machine) {
        return Question::Interface;
    }
    if !lists::word_ok(lists::machine_of(machine)) {
        return Question::X64Word;
    }
    Question::OtherRoom
}

// What a writer answers where the list is not ready: an empty result, 78, 11 or 12, else 54.
fn table_without_numbers(x: &Given) -> Result<Option<Counts>, Refusal>
    ensures { numbered_at result ≡ outcome_of (once_ready (table_is_empty x.now.format x.now.functions) (table_asks x.now.format x.now.machine.now) false empty) }
{
    if x.functions == 0 {
        return Ok(None);
    }
    match Format::try_from(x.format) {
        Ok(Format::Elf) => Err(elf_asks(x.machine).into()),
        Ok(Format::Coff) => Err(coff_asks(x.machine).into()),
        Ok(Format::MachO) => Err(Question::MachO.into()),
        Ok(Format::Wasm) => Ok(None),
        Ok(Format::Plan9) => Ok(None),
        Err(question) => Err(question.into()),
    }
}

fn debug_frame_without_numbers(x: &Given) -> Result<Option<Counts>, Refusal>
    ensures { numbered_at result ≡ outcome_of (once_ready (debug_frame_is_empty x.now.format x.now.functions) (debug_frame_asks x.now.machine.now) false empty) }
{
    if x.functions == 0 {
        return Ok(None);
    }
    let elf = u64::from(Format::Elf);
    if x.format != elf {
        return Ok(None);
    }
    Err(elf_asks(x.machine).into())
}

// ---- lists of structs

// The structs stored in the list, one list after the other, where it is ready for them: whether it is.
fn pack(functions: &[Function], rows: &[RowAt], numbers: &mut [u64]) -> bool
    ensures { (result ≡ ready_for numbers.old (length functions.now) (length rows.now)) × (numbers.new ≡ pick result (put numbers.old 0 (numbers_in functions.now rows.now)) numbers.old) }
{
    let f = functions.len();
    if !ready(numbers, f, rows.len()) {
        return false;
    }
    let a = FUNCTION_STRIDE * f;
    put_all(functions, numbers, 0);
    put_all(rows, numbers, a);
    true
}

// The numbers of a list at the front of a lent list, as the entries over numbers take them: 0, or 54 where they do not fit.
#[unsafe(no_mangle)]
pub extern "C" fn unwind_pack_rows(rows: &[RowAt], numbers: &mut [u64]) -> u64
    ensures { Packs (numbers_of row_numbers rows.now) numbers.old numbers.new result }
{
    pack_front(rows, numbers)
}

#[unsafe(no_mangle)]
pub extern "C" fn unwind_pack_functions(functions: &[Function], numbers: &mut [u64]) -> u64
    ensures { Packs (numbers_of function_numbers functions.now) numbers.old numbers.new result }
{
    pack_front(functions, numbers)
}

// Whether the rows state rules at each place, 1 or 0, as unwind_row_check says of the numbers that they mean.
#[unsafe(no_mangle)]
pub extern "C" fn unwind_row_check_of(simple: u64, rows: &[RowAt]) -> u64
    ensures { result ≡ bit (check_of simple rows.now) }
{
    u64::from(rows_checked(simple, rows))
}

// Kept: here and in the next one the lists one by one, as C lends them.
// unwind_relaxed_table over lists of structs; landings and pairs are lists of numbers. `numbers` is room for 18 numbers a function and 4 a row, all
// zero, else 54, asked behind 11 and 12. It goes back as it came.
#[unsafe(no_mangle)]
pub extern "C" fn unwind_relaxed_table_of(
    machine: &[u64],
    format: u64,
    functions: &[Function],
    rows: &[RowAt],
    landings: &[u64],
    pairs: &[u64],
    numbers: &mut [u64],
    places: &mut [u64],
    bytes: &mut [u8],
    relocations: &mut [u64],
    sites: &mut [u8],
) -> Written
    ensures { Exports (relaxed_table_of format machine.now numbers.old functions.now rows.now landings.now pairs.now (room_in places.old bytes.old relocations.old sites.old)) result places.old places.new bytes.old bytes.new relocations.old relocations.new sites.old sites.new × (numbers.new ≡ numbers.old) }
{
    let x = Given {
        machine,
        format,
        landings,
        pairs,
        functions: functions.len(),
        rows: rows.len(),
    };
    if !pack(functions, rows, numbers) {
        return Written::from(table_without_numbers(&x));
    }
    packed(false, &x, numbers, places, bytes, relocations, sites)
}

// unwind_relaxed_debug_frame in the same way.
#[unsafe(no_mangle)]
pub extern "C" fn unwind_relaxed_debug_frame_of(
    machine: &[u64],
    format: u64,
    functions: &[Function],
    rows: &[RowAt],
    landings: &[u64],
    pairs: &[u64],
    numbers: &mut [u64],
    places: &mut [u64],
    bytes: &mut [u8],
    relocations: &mut [u64],
) -> Written
    ensures { Exports (relaxed_debug_frame_of format machine.now numbers.old functions.now rows.now landings.now pairs.now (room_in places.old bytes.old relocations.old [])) result places.old places.new bytes.old bytes.new relocations.old relocations.new [] [] × (numbers.new ≡ numbers.old) }
{
    let x = Given {
        machine,
        format,
        landings,
        pairs,
        functions: functions.len(),
        rows: rows.len(),
    };
    if !pack(functions, rows, numbers) {
        return Written::from(debug_frame_without_numbers(&x));
    }
    // debug_frame has no call sites: no list is lent for them.
    packed(true, &x, numbers, places, bytes, relocations, &mut [])
}
