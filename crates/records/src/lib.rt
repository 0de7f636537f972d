// Call sites, and a record's bytes, size and relocations. Ported from rucc-asm/src/unwind.rs (call_sites, record, eh_record, debug_record, relaxed_advance, pair) of tamnd/rucc, changed: see NOTICE.
#![tactic(auto)]

ghost use Rattle.std.specs.Prelude.{◌≡◌, true, false, [], ◌+◌, ◌-◌, ◌*◌, ◌^◌, ◌≤◌, ◌<◌, T, length, replicate, IfSome};
ghost use Rattle.format.proofs.Wrote.{Wrote};
ghost use Rattle.format.specs.Machine.{is_word_size};
ghost use Rattle.format.specs.Leb.{uleb};
ghost use Rattle.format.specs.Headers.{counted};
ghost use Rattle.format.specs.Lists.{row_stride, row_at, numbers_of, count, most_records};
ghost use Rattle.format.specs.CallSites.{site_bytes, site_added};
ghost use Rattle.format.specs.Records.{record_relocs, set_kind, set_bytes, set_place, set_pair};
ghost use Rattle.rows.specs.Forms.{operand_bytes};
ghost use Rattle.lists.specs.Extents.{meant, meant_landing};
ghost use Rattle.header_keys.specs.Functions.{LandingsReady, LabelsReady};
ghost use Rattle.headers.specs.Kinds.{personality_in};
ghost use Rattle.records.specs.Stepped.{stepped_row_bytes, SteppedRowReady, SurveyedRow, Surveyed};
ghost use Rattle.records.specs.Fields.{size_in, lsda_named, blank_in, fields_in, sum_in, lsda_in, debug_relocs, eh_relocs, field_relocs};
ghost use Rattle.records.specs.Labels.{found_pair, steps_in};
ghost use Rattle.records.specs.Written.{RunReady, Leading, Others, run_bytes, steps_of, pairs_of, rows_of, fields_of, record_of, function_meant, record_relocs_of};

use header_keys::written::{Function, Run};
use header_keys::{Kind, kind_of};
use landing_list::Landings;
use lists::{Extent, Landing, Lsda, Pair};
use numbers::encodings;
use pair_list::Pairs;
use rows::row_numbers::RowNumbers;
use rows::{StepForm, Word};

pub mod landing_list;
pub mod pair_list;
pub mod places;

pub use places::Places;

// ---- call sites

// Kept: sizes beside bytes, here and below, for the reason at the head of headers.

// One entry: a call's start and length, its pad, and the action 0, a cleanup.
fn site(out: &mut [u8], at: usize, l: Landing) -> usize
    requires { at + length (site_bytes (meant_landing l)) ≤ length out.old }
    ensures { Wrote out.old out.new at result (site_bytes (meant_landing l)) }
{
    let a = leb::uleb(out, at, l.start);
    let b = leb::uleb(out, a, l.size);
    let c = leb::uleb(out, b, l.pad);
    leb::uleb(out, c, 0)
}

fn site_size(l: Landing) -> usize
    ensures { result ≡ length (site_bytes (meant_landing l)) }
{
    leb::uleb_size(l.start) + leb::uleb_size(l.size) + leb::uleb_size(l.pad) + leb::uleb_size(0)
}

// What a function adds to the call sites, of which there are `at` bytes.
pub fn call_sites(out: &mut [u8], at: usize, e: &Extent, landings: &[u64]) -> usize
    requires { LandingsReady e.now landings.now × (at + length (site_added at (meant e.now [] landings.now []).landings) ≤ length out.old) }
    ensures { Wrote out.old out.new at result (site_added at (meant e.now [] landings.now []).landings) }
{
    if e.landings == 0 {
        return at;
    }
    let a = leb::fill(out, at, headers::padding(4, at));
    let of_function = Landings::of(e, landings);
    of_function.put_table(out, a)
}

pub fn call_sites_size(at: usize, e: &Extent, landings: &[u64]) -> usize
    requires { LandingsReady e.now landings.now × (at < 2 ^ 32) }
    ensures { result ≡ length (site_added at (meant e.now [] landings.now []).landings) }
{
    if e.landings == 0 {
        return 0;
    }
    let of_function = Landings::of(e, landings);
    let n = of_function.size();
    headers::padding(4, at) + 3 + leb::uleb_size(n as u64) + n
}

// ---- rows and the steps between them

// Kept: here and below a loop over rows carries the offset `from` by hand. An iterator would hand out (from, i), since a row is read by its
// place in the list: a struct, its `next` and its laws for one line in each loop. `surveyed_rows` could not use it, whose rows are not yet
// known to be rows as `Run` asks.

// Row i and its step, from the offset `from` on.
fn stepped_row(out: &mut [u8], at: usize, run: &Run, from: u64, i: usize) -> usize
    requires { SteppedRowReady run.now.word from run.now.rows.now i × (at + length (stepped_row_bytes run.now.word from (row_at run.now.rows.now i)) ≤ length out.old) }
    ensures { Wrote out.old out.new at result (stepped_row_bytes run.now.word from (row_at run.now.rows.now i)) }
{
    let a = rows::advance(out, at, rows::offset_at(run.rows, i) - from);
    RowNumbers::at(run.rows, i).put(out, a, Word { bytes: run.word })
}

fn stepped_row_size(run: &Run, from: u64, i: usize) -> usize
    requires { SteppedRowReady run.now.word from run.now.rows.now i }
    ensures { (result ≡ length (stepped_row_bytes run.now.word from (row_at run.now.rows.now i))) × (result ≤ 14) }
{
    let step = rows::advance_size(rows::offset_at(run.rows, i) - from);
    step + RowNumbers::at(run.rows, i).size(Word { bytes: run.word })
}

// The rows of a run, with the steps between them.
fn stepped_rows(out: &mut [u8], at: usize, run: &Run) -> usize
    requires { RunReady run.now × (at + length (run_bytes run.now) ≤ length out.old) }
    ensures { Wrote out.old out.new at result (run_bytes run.now) }
{
    let mut from = 0;
    let mut p = at;
    for i in run.at..run.at + run.n {
        p = stepped_row(out, p, run, from, i);
        from = rows::offset_at(run.rows, i);
    }
    p
}

// How many bytes they have.
pub fn stepped_rows_size(run: &Run) -> usize
    requires { RunReady run.now }
    ensures { result ≡ length (run_bytes run.now) }
{
    let mut from = 0;
    let mut size = 0;
    for i in run.at..run.at + run.n {
        size += stepped_row_size(run, from, i);
        from = rows::offset_at(run.rows, i);
    }
    size
}

// ---- rows asked and sized at once

// The size of row i and its step, from the offset `from` on, where the row passes questions 13, 23 and 24. None says nothing.
fn surveyed_row(word: u64, from: u64, rows: &[u64], i: usize) -> Option<usize>
    requires { T (is_word_size word) × (row_stride * i + row_stride ≤ length rows.now) }
    ensures { IfSome result (λ n. (n ≤ 14) × SurveyedRow word from rows.now i n) }
{
    let to = rows::offset_at(rows, i);
    if to < from {
        return None;
    }
    let row = rows::surveyed(word, rows, i)?;
    let step = rows::step_surveyed(to - from)?;
    Some(step + row)
}

// The size of n rows from `first` on with the steps between them, where all of the rows pass the three. None says nothing.
pub fn surveyed_rows(word: u64, rows: &[u64], first: usize, n: usize) -> Option<usize>
    requires { T (is_word_size word) × (first + n ≤ count row_stride rows.now) × (n ≤ most_records) }
    ensures { Surveyed word rows.now first n result }
{
    let mut from = 0;
    let mut size = 0;
    for i in first..first + n {
        size += surveyed_row(word, from, rows, i)?;
        from = rows::offset_at(rows, i);
    }
    Some(size)
}

// ---- a record's fields

// Kept: in all that write bytes of a record the list and the place stand apart, as in leb; what is written is the function.

// The length: a linker fills in that of a function with relaxing labels.
#[tactic(auto, unfolding(crate::specs::Fields::size_in, crate::specs::Fields::labelled))]
fn size_field(f: &Function) -> u64
    ensures { result ≡ size_in f.now.extent }
{
    if f.extent.relaxed.is_some() {
        return 0;
    }
    f.extent.length
}

// The LSDA that a function's header names.
#[tactic(auto, unfolding(crate::specs::Fields::lsda_named))]
fn lsda(e: &Extent) -> Option<Lsda>
    ensures { result ≡ lsda_named (personality_in e.now) }
{
    headers::personality(e)?.lsda
}

// The blank bytes of the pointer to the call sites.
#[tactic(auto, unfolding(crate::specs::Fields::blank_in, crate::specs::Fields::lsda_by))]
fn lsda_blank(f: &Function) -> usize
    ensures { (result ≡ blank_in f.now.machine.now.word f.now.extent) × (result ≤ 8) }
{
    match lsda(&f.extent) {
        Some(l) => numbers::pointer_bytes(f.machine.word, l.encoding) as usize,
        None => 0,
    }
}

// n blank bytes behind their count.
fn blanks(out: &mut [u8], at: usize, n: usize) -> usize
    requires { at + length (uleb n) + n ≤ length out.old }
    ensures { Wrote out.old out.new at result (counted (replicate n 0)) }
{
    let a = leb::uleb(out, at, n as u64);
    leb::fill(out, a, n)
}

// In eh_frame: the distance from this field back to the header, the function's place, its length, the pointer to the call sites.
fn eh_record(out: &mut [u8], at: usize, f: &Function, distance: u64) -> usize
    requires { at + 12 + length (uleb (blank_in f.now.machine.now.word f.now.extent)) + blank_in f.now.machine.now.word f.now.extent ≤ length out.old }
    ensures { Wrote out.old out.new at result (fields_in false f.now.machine.now.word distance f.now.extent) }
{
    let a = leb::le(out, at, 4, distance);
    let b = leb::fill(out, a, 4);
    let c = leb::le(out, b, 4, size_field(f));
    blanks(out, c, lsda_blank(f))
}

// In debug_frame: the header's place, the function's address and its length.
fn debug_record(out: &mut [u8], at: usize, f: &Function) -> usize
    requires { at + 4 + 2 * f.now.machine.now.word ≤ length out.old }
    ensures { Wrote out.old out.new at result (fields_in true f.now.machine.now.word 0 f.now.extent) }
{
    let word = f.machine.word as usize;
    let a = leb::fill(out, at, 4);
    let b = leb::fill(out, a, word);
    leb::le(out, b, word, size_field(f))
}

fn fields(out: &mut [u8], at: usize, f: &Function, distance: u64) -> usize
    requires { at + length (fields_of f.now distance) ≤ length out.old }
    ensures { Wrote out.old out.new at result (fields_of f.now distance) }
{
    if f.debug {
        return debug_record(out, at, f);
    }
    eh_record(out, at, f, distance)
}

fn fields_size(f: &Function) -> usize
    ensures { (result ≡ length (fields_of f.now 0)) × (result ≤ 30) }
{
    if f.debug {
        return 4 + 2 * f.machine.word as usize;
    }
    let n = lsda_blank(f);
    12 + leb::uleb_size(n as u64) + n
}

// ---- a record

// The rows of a function that lead.
fn leading<'a>(f: &Function<'a>) -> Run<'a>
    ensures { Leading f.now result }
{
    Run {
        word: f.machine.word,
        rows: f.rows,
        at: f.extent.rows_at,
        n: header_keys::ahead(&f.extent, f.rows),
    }
}

// The others.
fn others<'a>(f: &Function<'a>) -> Run<'a>
    ensures { Others f.now result }
{
    let k = header_keys::ahead(&f.extent, f.rows);
    let left = f.extent.rows - k;
    Run {
        word: f.machine.word,
        rows: f.rows,
        at: f.extent.rows_at + k,
        n: left,
    }
}

// How many bytes a record at `at` has, whose function's rows have `size` bytes, those that lead too.
pub fn record_size(f: &Function, at: usize, size: usize) -> usize
    requires { (at < 2 ^ 32) × (size ≡ length (rows_of f.now)) }
    ensures { result ≡ length (record_of f.now at 0) }
{
    let body = fields_size(f) + (size - stepped_rows_size(&leading(f)));
    4 + body + headers::padding(f.align, at + 4 + body)
}

// A function's record, whose header is at `cie`: the fields, then the rows that do not lead with the steps between them.
pub fn record(out: &mut [u8], at: usize, f: &Function, cie: usize) -> usize
    requires { (cie ≤ at + 4) × (at + length (record_of f.now at cie) ≤ length out.old) }
    ensures { Wrote out.old out.new at result (record_of f.now at cie) }
{
    let run = others(f);
    let a = leb::fill(out, at, 4);
    let b = fields(out, a, f, (at + 4 - cie) as u64);
    let c = stepped_rows(out, b, &run);
    headers::pad(out, at, c, f.align)
}

// ---- the relocations of steps

// Kept: in all that write relocations from here on the list and the place in it stand apart, as in leb, from the place that is relocated or
// the function; what else each needs differs.

// Where a linker writes a step of a form: on the opcode, or behind it.
#[tactic(auto, unfolding(format::specs::Records::set_place))]
fn set_place(place: u64, form: StepForm) -> u64
    requires { place < 2 ^ 63 }
    ensures { result ≡ set_place place (operand_bytes form) }
{
    match form {
        StepForm::InOpcode => place,
        _ => place + 1,
    }
}

// The kind of Set for a form; Sub's is one more.
// Kept: a kind is the number that the list of relocations takes. The enum of kinds is `apply`'s, which reads such lists and stands above
// the writer; here it would be made to be turned into its number at once.
#[tactic(auto, unfolding(format::specs::Records::set_kind))]
fn set_kind(form: StepForm) -> u64
    ensures { (result ≡ set_kind (operand_bytes form)) × (result ≤ 11) }
{
    match form {
        StepForm::InOpcode => relocs::SET6,
        StepForm::OneByte => relocs::SET8,
        StepForm::TwoBytes => relocs::SET16,
        StepForm::FourBytes => relocs::SET32,
    }
}

// The bytes of the opcode, or of the operand.
#[tactic(auto, unfolding(format::specs::Records::set_bytes))]
fn set_bytes(form: StepForm) -> u64
    ensures { result ≡ set_bytes (operand_bytes form) }
{
    match form {
        StepForm::InOpcode => 1,
        _ => form.operand_bytes() as u64,
    }
}

// The relocations of a step of a form between the two places of a pair, where there is one: Set takes the second symbol, Sub the first.
fn relaxed_advance(
    out: &mut [u64],
    i: usize,
    place: u64,
    form: StepForm,
    pair: Option<Pair>,
) -> usize
    requires { (place < 2 ^ 63) × (i + length (numbers_of (set_pair place (operand_bytes form) (found_pair pair))) ≤ length out.old) }
    ensures { Wrote out.old out.new i result (numbers_of (set_pair place (operand_bytes form) (found_pair pair))) }
{
    let Some(p) = pair else {
        return i;
    };
    let at = set_place(place, form);
    let kind = set_kind(form);
    let bytes = set_bytes(form);
    let a = relocs::relocation(out, i, at, p.symbol2, kind, bytes, 0);
    relocs::relocation(out, a, at, p.symbol1, kind + 1, bytes, 0)
}

#[tactic(auto, unfolding(crate::specs::Labels::found_pair, format::specs::Records::set_pair))]
fn relaxed_advance_count(pair: Option<Pair>) -> usize
    ensures { (result ≡ length (set_pair 0 0 (found_pair pair))) × (result ≤ 2) }
{
    match pair {
        Some(_) => 2,
        None => 0,
    }
}

// Those of the rows of a run, whose bytes start at `place`.
fn step_relocs(out: &mut [u64], i: usize, place: u64, run: &Run, mut pairs: Pairs) -> usize
    requires { RunReady run.now × (place < 2 ^ 62) × (i + length (numbers_of (steps_of run.now place (pairs_of pairs))) ≤ length out.old) }
    ensures { Wrote out.old out.new i result (numbers_of (steps_of run.now place (pairs_of pairs.entry))) }
{
    let mut from = 0;
    let mut p = place;
    let mut q = i;
    for k in run.at..run.at + run.n {
        let to = rows::offset_at(run.rows, k);
        let pair = pairs.step(from, to);
        q = relaxed_advance(out, q, p, rows::step_form(to - from), pair);
        p += stepped_row_size(run, from, k) as u64;
        from = to;
    }
    q
}

fn step_relocs_count(run: &Run, mut pairs: Pairs) -> usize
    requires { run.now.n ≤ most_records }
    ensures { (result ≡ length (steps_in 0 0 0 run.now.rows.now run.now.at run.now.n (pairs_of pairs.entry))) × (result ≤ 2 * run.now.n) }
{
    let mut from = 0;
    let mut size = 0;
    for k in run.at..run.at + run.n {
        let to = rows::offset_at(run.rows, k);
        let pair = pairs.step(from, to);
        size += relaxed_advance_count(pair);
        from = to;
    }
    size
}

// ---- a record's relocations

// The length as the distance from the function to its end label, where it has relaxing labels.
fn sum_pair(out: &mut [u64], i: usize, f: &Function, place: u64, bytes: u64) -> usize
    requires { i + length (numbers_of (sum_in place bytes f.now.extent)) ≤ length out.old }
    ensures { Wrote out.old out.new i result (numbers_of (sum_in place bytes f.now.extent)) }
{
    let Some(l) = f.extent.relaxed else {
        return i;
    };
    let a = relocs::relocation(out, i, place, l.end, relocs::SUM_PLUS, bytes, 0);
    relocs::relocation(out, a, place, f.extent.symbol, relocs::SUM_MINUS, bytes, 0)
}

#[tactic(auto, unfolding(crate::specs::Fields::sum_in, crate::specs::Fields::labelled))]
fn sum_count(f: &Function) -> usize
    ensures { (result ≡ length (sum_in 0 0 f.now.extent)) × (result ≤ 2) }
{
    if f.extent.relaxed.is_some() {
        return 2;
    }
    0
}

// The pointer to the call sites: to the function's table, or to what a named personality has.
// Kept: by the kind, and not by `lsda`: with landings the addend is the place of the function's table, with a named personality it is 0.
fn lsda_reloc(out: &mut [u64], i: usize, f: &Function, place: u64, table: u64) -> usize
    requires { i + length (numbers_of (lsda_in f.now.machine.now.word place table f.now.extent)) ≤ length out.old }
    ensures { Wrote out.old out.new i result (numbers_of (lsda_in f.now.machine.now.word place table f.now.extent)) }
{
    match kind_of(&f.extent) {
        Kind::Plain => i,
        Kind::Personal => {
            relocs::relocation(out, i, place, relocs::EXCEPT_TABLE, relocs::DATA, 4, table)
        }
        Kind::Named(p) => match p.lsda {
            Some(l) => headers::pointer(out, i, f.machine.word, place, l.symbol, l.encoding),
            None => i,
        },
    }
}

#[tactic(auto, unfolding(crate::specs::Fields::lsda_in))]
fn lsda_count(f: &Function) -> usize
    ensures { (result ≡ length (lsda_in 0 0 0 f.now.extent)) × (result ≤ 1) }
{
    usize::from(lsda(&f.extent).is_some())
}

// In debug_frame the header's place in the section, the function and its length.
fn debug_relocs(out: &mut [u64], i: usize, f: &Function, p: &Places) -> usize
    requires { i + length (numbers_of (debug_relocs f.now.machine.now.word p.now.at p.now.cie f.now.extent)) ≤ length out.old }
    ensures { Wrote out.old out.new i result (numbers_of (debug_relocs f.now.machine.now.word p.now.at p.now.cie f.now.extent)) }
{
    let word = f.machine.word;
    let at = p.at as u64;
    let cie = p.cie as u64;
    let a = relocs::relocation(out, i, at + 4, relocs::DEBUG_FRAME, relocs::ADDRESS, 4, cie);
    let b = relocs::relocation(out, a, at + 8, f.extent.symbol, relocs::ADDRESS, word, 0);
    sum_pair(out, b, f, at + 8 + word, word)
}

// In eh_frame the function, the call sites and the length.
fn eh_relocs(out: &mut [u64], i: usize, f: &Function, p: &Places) -> usize
    requires { i + length (numbers_of (eh_relocs f.now.machine.now.word p.now.at p.now.table f.now.extent)) ≤ length out.old }
    ensures { Wrote out.old out.new i result (numbers_of (eh_relocs f.now.machine.now.word p.now.at p.now.table f.now.extent)) }
{
    let at = p.at as u64;
    let a = relocs::relocation(out, i, at + 8, f.extent.symbol, relocs::DATA, 4, 0);
    let b = lsda_reloc(out, a, f, at + 17, p.table as u64);
    sum_pair(out, b, f, at + 12, 4)
}

fn field_relocs(out: &mut [u64], i: usize, f: &Function, p: &Places) -> usize
    requires { i + length (numbers_of (field_relocs f.now.debug f.now.machine.now.word p.now.at p.now.cie p.now.table f.now.extent)) ≤ length out.old }
    ensures { Wrote out.old out.new i result (numbers_of (field_relocs f.now.debug f.now.machine.now.word p.now.at p.now.cie p.now.table f.now.extent)) }
{
    if f.debug {
        return debug_relocs(out, i, f, p);
    }
    eh_relocs(out, i, f, p)
}

fn field_relocs_count(f: &Function) -> usize
    ensures { (result ≡ length (field_relocs f.now.debug 0 0 0 0 f.now.extent)) × (result ≤ 4) }
{
    if f.debug {
        return 2 + sum_count(f);
    }
    1 + lsda_count(f) + sum_count(f)
}

// How many relocations a record has.
pub fn record_relocs_count(f: &Function, pairs: &[u64]) -> usize
    requires { LabelsReady f.now.extent pairs.now }
    ensures { result ≡ length (record_relocs f.now.debug f.now.machine.now 0 0 0 (function_meant f.now pairs.now)) }
{
    let n = field_relocs_count(f);
    let Some(labels) = f.extent.relaxed else {
        return n;
    };
    n + step_relocs_count(&others(f), Pairs::of(&labels, pairs))
}

// Those of a record: of the fields, then of the steps.
pub fn record_relocs(out: &mut [u64], i: usize, f: &Function, p: &Places, pairs: &[u64]) -> usize
    requires { LabelsReady f.now.extent pairs.now × (i + 5 * length (record_relocs_of f.now p.now pairs.now) ≤ length out.old) }
    ensures { Wrote out.old out.new i result (numbers_of (record_relocs_of f.now p.now pairs.now)) }
{
    let a = field_relocs(out, i, f, p);
    let Some(labels) = f.extent.relaxed else {
        return a;
    };
    let place = p.at + 4 + fields_size(f);
    step_relocs(out, a, place as u64, &others(f), Pairs::of(&labels, pairs))
}
