// The DWARF sections: questions 21 to 25, sizes, 51 to 54, and the writing of them. Ported from rucc-asm/src/unwind.rs (dwarf, relaxed_debug_frame, Table) of tamnd/rucc, changed: see NOTICE.
#![tactic(auto)]

ghost use Rattle.std.specs.Prelude.{◌≡◌, ℕ, ◌+◌, ◌*◌, ◌^◌, ◌≤◌, ◌<◌, true, not, [], T, ltb, eqb, length, get_or};
ghost use Rattle.format.specs.Prelude.{all, each, pick};
ghost use Rattle.format.specs.Lists.{field, function_stride, pair_stride, sum_of, most_functions, most_records, pair_at, row_at};
ghost use Rattle.format.specs.Questions.{size_bytes, encodings_ok, steps_ok, pairs_ok, dwarf_asks, per_function, fitting, dwarf_given, given_of, room_in};
ghost use Rattle.format.specs.Writer.{is_debug, align_for};
ghost use Rattle.format.specs.Answers.{Writes};
ghost use Rattle.format.specs.Coded.{numbered_at};
ghost use Rattle.format.proofs.Asked.{question_of};
ghost use Rattle.lists.specs.Extents.{meant};
ghost use Rattle.lists.specs.Parts.{sums_ok};
ghost use Rattle.lists.specs.Room.{room_for};
ghost use Rattle.lists.specs.Lent.{SameLists, room_of, WritesTo};
ghost use Rattle.header_keys.specs.Functions.{body_of, RowsReady, Sound, PairsReady, LabelsReady};
ghost use Rattle.header_keys.specs.Inputs.{inputs_of, count_in, extent_in, RowsIn};
ghost use Rattle.dwarf.specs.Asks.{Askable, AllAskable, asked_in, lines_asks, listed_answer};
ghost use Rattle.dwarf.specs.Parts.{parts_to, section_in};
ghost use Rattle.dwarf.specs.Writable.{Writable, Cleared, Next};
ghost use Rattle.dwarf.specs.OneProof.{Cleared-prop, Owned-prop};
ghost use Rattle.format.specs.Machine.{is_word_size};
ghost use Rattle.header_keys.specs.OneProof.{RowsReady-prop};
ghost use Rattle.format.specs.Rows.{row_whole};
ghost use Rattle.dwarf.specs.Tables.{totals_in, grown_by, Small, labelled_rows, most_in, Few, counts_of};
ghost use Rattle.owners.specs.Owners.{owner};
ghost use Rattle.owners.specs.Chains.{Owned};
ghost use Rattle.owners.specs.Lent.{LongFor, EmptyFor};
ghost use Rattle.dwarf.specs.Surveys.{rows_size, FunctionSurveyed, AllSurveyed};
ghost use Rattle.dwarf.specs.Lent.{HasRoom, ReadyFor, AddsTo, FillsTo};
ghost use Rattle.records.specs.Written as record_parts;
ghost use Rattle.dwarf.specs.Functions.{WrittenAs, front_end, part_for, CanSize, FrontFits, FrontWritten, HeadWritten, PieceFits, PieceWritten};

use format::{Counts, Question, Refusal, Section};
use header_keys::written::{Function, Run};
use header_keys::{Input, Kind, kind_of};
use headers::{header, header_relocs, header_relocs_count, header_size, padding};
use lists::output::Output;
use lists::{Extent, Labels, Lists, MOST_FUNCTIONS, read_machine, sums_ok};
use numbers::pointer_size;
use owners::Chains;
use records::{
    Places, call_sites, call_sites_size, record, record_relocs, record_relocs_count, record_size,
    surveyed_rows,
};
use rows::row_numbers::RowNumbers;
use rows::{offset_at, row_at, row_whole, step_ok};

// ---- questions 21 to 25

// Question 21: a length fits its field.
fn size_ok(x: &Input, e: &Extent) -> bool
    ensures { result ≡ ltb e.now.length (256 ^ size_bytes x.now.section x.now.machine.word) }
{
    match x.section {
        Section::Elf => e.length <= numbers::largest(4),
        Section::Debug => e.length <= numbers::largest(x.machine.word),
    }
}

// Question 22: the encodings that are used are written.
fn encodings_ok(x: &Input, e: &Extent) -> bool
    ensures { result ≡ encodings_ok x.now.machine.word (body_of e.now []).landings (body_of e.now []).named }
{
    match kind_of(e) {
        Kind::Plain => true,
        Kind::Personal => true,
        Kind::Named(p) => {
            if pointer_size(true, x.machine.word, p.encoding).is_none() {
                return false;
            }
            match p.lsda {
                Some(l) => pointer_size(false, x.machine.word, l.encoding).is_some(),
                None => true,
            }
        }
    }
}

// A function's rows, which can be read, and the word that they are asked for.
// Kept: beside `header_keys::written::Run`, which rows are written from: question 24 needs that the word is the size of a word, which a
// `Run` does not know. Around a `Run` each clause below would name the rows, the place and the count as parts of a part.
#[derive(Clone, Copy)]
struct Lines<'a> {
    word: u64,
    rows: &'a [u64],
    at: usize,
    n: usize,
    ghost is_word: { T (is_word_size word) },
    ghost ready: { RowsReady rows.now at n } by { RowsReady-prop rows.now at n },
}

// Kept: three passes ask questions 23 and 24. `fine` asks both at once, for more than they do, and is what most functions need; where it says no, the
// two plain ones tell which question it is (D107 of docs/DECISIONS.md).
impl Lines<'_> {
    // Question 23: no row goes back, nor steps above 2^32 - 1.
    // Kept: a loop, and no `all`: each row is set beside the one in front of it and the first one beside 0, so that `all` over the places
    // would have a case of its own for the first one, and would read each offset twice.
    fn steps_ok(&self) -> bool
        ensures { result ≡ steps_ok 0 (each (row_at self.now.rows.now) self.now.at self.now.n) }
    {
        let mut from = 0;
        for i in self.at..self.at + self.n {
            let to = offset_at(self.rows, i);
            if to < from {
                return false;
            }
            if !step_ok(to - from) {
                return false;
            }
            from = to;
        }
        true
    }

    // Row i's offset, where it is written factored, is a multiple of the word.
    fn row_whole(&self, i: usize) -> bool
        requires { (self.now.at ≤ i) × (i < self.now.at + self.now.n) }
        ensures { result ≡ row_whole self.now.word (row_at self.now.rows.now i).1 }
    {
        row_whole(self.word, row_at(self.rows, i))
    }

    // Question 24: each offset that is written factored is a multiple of the word.
    fn whole(&self) -> bool
        ensures { result ≡ all (λ r. row_whole self.now.word r.1) (each (row_at self.now.rows.now) self.now.at self.now.n) }
    {
        (self.at..self.at + self.n).all(|i| self.row_whole(i))
    }

    // Questions 23 and 24 in one pass, asked for more. A no says nothing. With the word in a local the compiler tests it once.
    // Kept: `from` by hand. An iterator would hand out the place of a row and the offset in front of it: a struct, its `next` and its laws
    // for one line in this loop.
    fn fine(&self) -> bool
        ensures { result ≡ true → (steps_ok 0 (each (row_at self.now.rows.now) self.now.at self.now.n) ≡ true) × (all (λ r. row_whole self.now.word r.1) (each (row_at self.now.rows.now) self.now.at self.now.n) ≡ true) }
    {
        let word = self.word;
        let mut from = 0;
        for i in self.at..self.at + self.n {
            let to = offset_at(self.rows, i);
            if to < from {
                return false;
            }
            if !step_ok(to - from) {
                return false;
            }
            if !RowNumbers::at(self.rows, i).surely_whole(word) {
                return false;
            }
            from = to;
        }
        true
    }
}

// Function k is refused by a question.
fn function_refused(question: Question, k: usize) -> Refusal
    ensures { result ≡ record { question = question; position = k } }
{
    Refusal {
        question,
        position: k as u64,
    }
}

// Questions 23 and 24 of function k.
fn lines_ask(x: &Input, k: usize, e: &Extent) -> Result<(), Refusal>
    requires { RowsIn (inputs_of x.now) e.now }
    ensures { numbered_at result ≡ question_of (lines_asks (inputs_of x.now) k e.now) }
{
    let lines = Lines {
        word: x.machine.word,
        rows: x.lists.rows,
        at: e.rows_at,
        n: e.rows,
    };
    if lines.fine() {
        return Ok(());
    }
    if !lines.steps_ok() {
        return Err(function_refused(Question::Order, k));
    }
    if !lines.whole() {
        return Err(function_refused(Question::Multiples, k));
    }
    Ok(())
}

// The two places of pair i are different.
fn pair_differs(pairs: &[u64], i: usize) -> bool
    requires { pair_stride * i + pair_stride ≤ length pairs.now }
    ensures { result ≡ not (eqb (pair_at pairs.now i).place1 (pair_at pairs.now i).place2) }
{
    pairs[lists::PAIR_STRIDE * i] != pairs[lists::PAIR_STRIDE * i + 1]
}

// Question 25: the two places of each pair are different.
fn pairs_differ(x: &Input, l: &Labels) -> bool
    requires { PairsReady l.now x.now.lists.pairs.now }
    ensures { result ≡ all (λ p. not (eqb p.place1 p.place2)) (each (pair_at x.now.lists.pairs.now) l.now.pairs_at l.now.pairs) }
{
    (l.pairs_at..l.pairs_at + l.pairs).all(|i| pair_differs(x.lists.pairs, i))
}

// Question 25 of a function, where it has relaxing labels.
fn pairs_ok(x: &Input, e: &Extent) -> bool
    requires { LabelsReady e.now x.now.lists.pairs.now }
    ensures { result ≡ pairs_ok (meant e.now [] [] x.now.lists.pairs.now).relaxed }
{
    match e.relaxed {
        Some(l) => pairs_differ(x, &l),
        None => true,
    }
}

// Questions 21 to 25 of function k, as the section takes it.
fn dwarf_asks(x: &Input, k: usize, e: &Extent) -> Result<(), Refusal>
    requires { Askable e.now x.now.lists.rows.now x.now.lists.pairs.now }
    ensures { numbered_at result ≡ question_of (dwarf_asks x.now.section x.now.machine.word k (meant e.now x.now.lists.rows.now [] x.now.lists.pairs.now)) }
{
    if !size_ok(x, e) {
        return Err(function_refused(Question::Length, k));
    }
    if !encodings_ok(x, e) {
        return Err(function_refused(Question::Encodings, k));
    }
    lines_ask(x, k, e)?;
    if !pairs_ok(x, e) {
        return Err(function_refused(Question::Pairs, k));
    }
    Ok(())
}

// Questions 21 to 25, function by function.
fn all_asks(x: &Input) -> Result<(), Refusal>
    requires { AllAskable (inputs_of x.now) }
    ensures { numbered_at result ≡ question_of (per_function (dwarf_asks x.now.section x.now.machine.word) 0 (each (asked_in (inputs_of x.now)) 0 (count_in (inputs_of x.now)))) }
{
    let n = x.lists.count();
    for k in 0..n {
        let e = x.function(k);
        dwarf_asks(x, k, &e)?;
    }
    Ok(())
}

// ---- the sizing pass

// What stands in the lent lists of bytes, relocations and call sites by now, in their elements.
// Kept: beside format::Counts. These are places in the lent lists, so of usize, and the relocations count numbers and not relocations; and
// of header places there is one for each function, so that no pass carries their count.
#[derive(Clone, Copy, Default)]
pub struct Table {
    pub bytes: usize,
    pub relocations: usize,
    pub sites: usize,
}

// Kept: a `bool`, here and in what is written of a function: the definitions of an entry's bytes take a Bool, and not the section.
#[tactic(auto, unfolding(format::specs::Writer::is_debug))]
fn is_debug(s: Section) -> bool
    ensures { result ≡ is_debug s }
{
    matches!(s, Section::Debug)
}

// What a function's entries are padded to.
fn align_for(s: Section, word: u64, last: bool) -> usize
    ensures { result ≡ align_for s word last }
{
    if last {
        return word as usize;
    }
    if word < 4 {
        return word as usize;
    }
    match s {
        Section::Elf => 4,
        Section::Debug => word as usize,
    }
}

// Function k as the section writes it, the last one or not.
fn written<'a>(x: &'a Input, k: usize, last: bool) -> Function<'a>
    requires { Writable (inputs_of x.now) k }
    ensures { WrittenAs (inputs_of x.now) k last result }
{
    Function {
        debug: is_debug(x.section),
        machine: &x.machine,
        align: align_for(x.section, x.machine.word, last),
        extent: x.function(k),
        rows: x.lists.rows,
    }
}

// What stands behind a function's own header, behind t.
fn front_sized(f: &Function, t: Table) -> Table
    requires { Small (front_end f.now t) }
    ensures { result ≡ front_end f.now t }
{
    let n = header_relocs_count(f.debug, &f.extent);
    Table {
        bytes: t.bytes + header_size(f, t.bytes),
        relocations: t.relocations + relocs::RELOCATION_STRIDE * n,
        sites: t.sites,
    }
}

// The same where the header is its own; t where it is another function's.
#[tactic(auto, unfolding(format::specs::Prelude::pick))]
fn headed_sized(own: bool, f: &Function, t: Table) -> Table
    requires { own ≡ true → Small (front_end f.now t) }
    ensures { result ≡ pick own (front_end f.now t) t }
{
    if own {
        return front_sized(f, t);
    }
    t
}

// What stands behind a function that is behind t and whose rows have `size` bytes. Its header's place does not matter.
fn sized(lists: &Lists, size: usize, f: &Function, t: Table) -> Table
    requires { CanSize f.now lists.now t × (size ≡ length (record_parts.rows_of f.now)) }
    ensures { result ≡ grown_by t (part_for f.now lists.now t 0) }
{
    let n = record_relocs_count(f, lists.pairs);
    Table {
        bytes: t.bytes + record_size(f, t.bytes, size),
        relocations: t.relocations + relocs::RELOCATION_STRIDE * n,
        sites: t.sites + call_sites_size(t.sites, &f.extent, lists.landings),
    }
}

// What stands behind function k of n, behind t, where its header is function o's and its rows have `size` bytes.
fn size_next(x: &Input, o: usize, k: usize, n: usize, size: usize, t: Table) -> Table
    requires { Next (inputs_of x.now) k n t × (o ≡ owner (inputs_of x.now) k) × (size ≡ rows_size (inputs_of x.now) k) }
    ensures { result ≡ totals_in (parts_to (inputs_of x.now) (k + 1)) }
{
    let f = written(x, k, k + 1 == n);
    let u = headed_sized(o == k, &f, t);
    sized(&x.lists, size, &f, u)
}

// The bytes of function k's rows, with the steps between them.
fn rows_size(x: &Input, k: usize) -> usize
    requires { (function_stride * k + function_stride ≤ length x.now.lists.functions.now) × Sound x.now.machine (extent_in (inputs_of x.now) k) x.now.lists.rows.now }
    ensures { result ≡ rows_size (inputs_of x.now) k }
{
    let e = x.function(k);
    let run = Run {
        word: x.machine.word,
        rows: x.lists.rows,
        at: e.rows_at,
        n: e.rows,
    };
    records::stepped_rows_size(&run)
}

// ---- questions, owners and sizes in one pass

// Questions 21, 22 and 25 of a function, as the section takes it.
fn fields_ok(x: &Input, e: &Extent) -> bool
    requires { LabelsReady e.now x.now.lists.pairs.now }
    ensures { result ≡ true → (ltb e.now.length (256 ^ size_bytes x.now.section x.now.machine.word) ≡ true) × (encodings_ok x.now.machine.word (body_of e.now []).landings (body_of e.now []).named ≡ true) × (pairs_ok (meant e.now [] [] x.now.lists.pairs.now).relaxed ≡ true) }
{
    if !size_ok(x, e) {
        return false;
    }
    if !encodings_ok(x, e) {
        return false;
    }
    pairs_ok(x, e)
}

// ---- what the functions can be at most

// What `number` says of each of n functions, summed.
fn summed<F: Fn(usize) -> u64>(number: F, n: usize) -> u64
    requires { (n ≤ most_functions) × ((k : ℕ) → k < n → F.pre number k) × ((k v : ℕ) → k < n → F.post number k v → v ≤ most_records) }
    ensures { (of : ℕ → ℕ) → ((k v : ℕ) → k < n → F.post number k v → v ≡ of k) → result ≡ sum_of of 0 n }
{
    let mut sum = 0;
    for k in 0..n {
        sum += number(k);
    }
    sum
}

// Number j of n functions, summed.
fn total(fs: &[u64], j: usize, n: usize) -> u64
    requires { (j < function_stride) × (function_stride * n ≤ length fs.now) × (n ≤ most_functions) × (sum_of (λ k. field function_stride fs.now k j) 0 n ≤ most_records) }
    ensures { result ≡ sum_of (λ k. field function_stride fs.now k j) 0 n }
{
    summed(|k| fs[lists::FUNCTION_STRIDE * k + j], n)
}

// The rows of those of n functions that have relaxing labels, summed.
fn labelled_total(fs: &[u64], n: usize) -> u64
    requires { (function_stride * n ≤ length fs.now) × (n ≤ most_functions) × (sum_of (labelled_rows fs.now) 0 n ≤ most_records) }
    ensures { result ≡ sum_of (labelled_rows fs.now) 0 n }
{
    summed(|k| lists::where_labelled(fs, k, lists::function::ROWS), n)
}

// What stands behind all functions, at most.
fn most(fs: &[u64]) -> Table
    requires { Few fs.now }
    ensures { result ≡ most_in fs.now }
{
    let n = fs.len() / lists::FUNCTION_STRIDE;
    Table {
        bytes: 96 * n + 14 * total(fs, lists::function::ROWS, n) as usize,
        relocations: 25 * n + 10 * labelled_total(fs, n) as usize,
        sites: 17 * n + 40 * total(fs, lists::function::LANDINGS, n) as usize,
    }
}

// A table's counts behind n header places, in the elements of the lent lists.
fn counts(n: usize, t: Table) -> Counts
    ensures { result ≡ counts_of n t }
{
    Counts {
        places: n as u64,
        bytes: t.bytes as u64,
        relocations: t.relocations as u64,
        sites: t.sites as u64,
    }
}

// Questions 51 to 54: n header places and t fit the lists that are lent.
fn room(n: usize, t: Table, lent: Counts) -> Result<(), Refusal>
    ensures { numbered_at result ≡ question_of (room_for (counts_of n t) lent) }
{
    lists::room(counts(n, t), lent)
}

// ---- the writing pass

// A function's own header with its relocation, behind t.
fn front(f: &Function, t: Table, to: &mut Output) -> Table
    requires { FrontFits f.now t to.old }
    ensures stored { FrontWritten f.now t result to.old to.new }
    ensures sites_kept { to.new.sites.now ≡ to.old.sites.now }
    ensures places_kept { to.new.places.now ≡ to.old.places.now }
    ensures same { SameLists to.old to.new }
{
    let at = header(to.bytes, t.bytes, f);
    let i = header_relocs(
        to.relocations,
        t.relocations,
        f.debug,
        f.machine,
        t.bytes,
        &f.extent,
    );
    Table {
        bytes: at,
        relocations: i,
        sites: t.sites,
    }
}

// The same where the header is its own; where it is another function's nothing is written.
fn headed(own: bool, f: &Function, t: Table, to: &mut Output) -> Table
    requires { own ≡ true → FrontFits f.now t to.old }
    ensures stored { HeadWritten own f.now t result to.old to.new }
    ensures sites_kept { to.new.sites.now ≡ to.old.sites.now }
    ensures places_kept { to.new.places.now ≡ to.old.places.now }
    ensures same { SameLists to.old to.new }
{
    if own {
        return front(f, t, to);
    }
    t
}

// The place of function k's header behind `at` bytes: that of its owner o, which stands among the places.
#[tactic(auto, unfolding(format::specs::Prelude::pick))]
fn header_place(o: usize, k: usize, at: usize, to: &Output) -> usize
    requires { (o ≡ k → ⊥) → o < length to.now.places.now }
    ensures { result ≡ pick (eqb o k) at (get_or to.now.places.now o 0) }
{
    if o == k {
        return at;
    }
    to.places[o] as usize
}

// A function's record and its call sites behind t, with its header at `cie`.
fn piece(lists: &Lists, cie: usize, f: &Function, t: Table, to: &mut Output) -> Table
    requires { PieceFits cie f.now lists.now t to.old }
    ensures stored { PieceWritten cie f.now lists.now t result to.old to.new }
    ensures places_kept { to.new.places.now ≡ to.old.places.now }
    ensures same { SameLists to.old to.new }
{
    let at = record(to.bytes, t.bytes, f, cie);
    let p = Places {
        at: t.bytes,
        cie,
        table: t.sites + padding(4, t.sites),
    };
    let i = record_relocs(to.relocations, t.relocations, f, &p, lists.pairs);
    let end = call_sites(to.sites, t.sites, &f.extent, lists.landings);
    Table {
        bytes: at,
        relocations: i,
        sites: end,
    }
}

// ---- the whole

// Functions that have passed all questions, and the owners of their headers.
#[derive(Clone, Copy)]
struct Entries<'a> {
    input: &'a Input<'a>,
    owners: &'a [u16],
    ghost cleared: { Cleared (inputs_of input.now) } by { Cleared-prop (inputs_of input.now) },
    ghost owned: { Owned (inputs_of input.now) (count_in (inputs_of input.now)) owners.now } by { Owned-prop (inputs_of input.now) (count_in (inputs_of input.now)) owners.now },
}

impl Entries<'_> {
    // What stands behind all of them.
    fn sizes(&self) -> Table
        ensures { result ≡ totals_in (parts_to (inputs_of self.now.input.now) (count_in (inputs_of self.now.input.now))) }
    {
        let n = self.input.lists.count();
        let mut t = Table::default();
        for k in 0..n {
            let size = rows_size(self.input, k);
            let o = usize::from(self.owners[k]);
            t = size_next(self.input, o, k, n, size, t);
        }
        t
    }

    // Function k of n behind t, with a header of its own or that of its owner.
    fn part(&self, k: usize, n: usize, t: Table, to: &mut Output) -> Table
        requires { ReadyFor (inputs_of self.now.input.now) k n t to.old }
        ensures { AddsTo (inputs_of self.now.input.now) k t result to.old to.new }
    {
        let o = usize::from(self.owners[k]);
        let f = written(self.input, k, k + 1 == n);
        let cie = header_place(o, k, t.bytes, to);
        to.places[k] = cie as u64;
        let u = headed(o == k, &f, t, to);
        piece(&self.input.lists, cie, &f, u, to)
    }

    // All of them.
    fn store(&self, to: &mut Output) -> Table
        requires { HasRoom (inputs_of self.now.input.now) (count_in (inputs_of self.now.input.now)) to.old }
        ensures { FillsTo (inputs_of self.now.input.now) (count_in (inputs_of self.now.input.now)) result to.old to.new }
    {
        let functions = self.input.lists.count();
        let mut t = Table::default();
        for k in 0..functions {
            t = self.part(k, functions, t, to);
        }
        t
    }

    // They are written into lists that have room for them.
    fn stored(&self, to: &mut Output) -> Result<Option<Counts>, Refusal>
        requires { HasRoom (inputs_of self.now.input.now) (count_in (inputs_of self.now.input.now)) to.old }
        ensures { WritesTo (fitting (room_of to.old) (section_in (inputs_of self.now.input.now))) (numbered_at result) to.old to.new }
    {
        let n = self.input.lists.count();
        let t = self.store(to);
        Ok(Some(Counts {
            places: n as u64,
            bytes: t.bytes as u64,
            relocations: (t.relocations / relocs::RELOCATION_STRIDE) as u64,
            sites: t.sites as u64,
        }))
    }

    // They are written where there is room for t, which stands behind them.
    fn roomed(&self, t: Table, to: &mut Output) -> Result<Option<Counts>, Refusal>
        requires { t ≡ totals_in (parts_to (inputs_of self.now.input.now) (count_in (inputs_of self.now.input.now))) }
        ensures { WritesTo (fitting (room_of to.old) (section_in (inputs_of self.now.input.now))) (numbered_at result) to.old to.new }
    {
        let n = self.input.lists.count();
        room(n, t, to.lent())?;
        self.stored(to)
    }
}

// The chains of owners empty again.
fn unchain(heads: &mut [u16])
    ensures { (length heads.new ≡ length heads.old) × ((h : ℕ) → h < length heads.new → get_or heads.new h 0 ≡ 0) }
{
    heads.fill(0);
}

// The lists that are lent hold the most that such functions can need, so that they need not be sized.
fn ample(fs: &[u64], lent: Counts) -> bool
    requires { Few fs.now }
{
    room(fs.len() / lists::FUNCTION_STRIDE, most(fs), lent).is_ok()
}

// The functions written where there is room; their owners are found first, in the lists lent for that. Where the lists hold the most
// that such functions can need, the pass that sizes them is left out.
// Kept: the lists that owners are found in are lent, here and in what calls it, beside the lists that are written. In one struct with
// the input they would be lent to be written as a whole, and each contract would have to say that the input stays; and that they
// are empty is true at the start only, so that no struct can hold it.
fn fitted(x: &Input, chains: &mut Chains, to: &mut Output) -> Result<Option<Counts>, Refusal>
    requires { Cleared (inputs_of x.now) × EmptyFor (count_in (inputs_of x.now)) chains.old }
    ensures { WritesTo (fitting (room_of to.old) (section_in (inputs_of x.now))) (numbered_at result) to.old to.new }
{
    let n = x.lists.count();
    owners::owners(x, n, chains);
    let entries = Entries {
        input: x,
        owners: chains.owners,
    };
    if room(n, most(x.lists.functions), to.lent()).is_err() {
        let t = entries.sizes();
        return entries.roomed(t, to);
    }
    entries.stored(to)
}

// Functions whose sums have passed question 13.
#[derive(Clone, Copy)]
struct Counted<'a> {
    input: &'a Input<'a>,
    ghost sums: { T (sums_ok input.now.lists.functions.now) },
}

impl Counted<'_> {
    // The bytes of function k's rows, where it passes questions 13 and 21 to 25. None says nothing.
    fn function_surveyed(&self, k: usize) -> Option<usize>
        requires { k < count_in (inputs_of self.now.input.now) }
        ensures { FunctionSurveyed (inputs_of self.now.input.now) k result }
    {
        let x = self.input;
        if !x.lists.outline_ok(k) {
            return None;
        }
        let e = x.function(k);
        if !fields_ok(x, &e) {
            return None;
        }
        surveyed_rows(x.machine.word, x.lists.rows, e.rows_at, e.rows)
    }

    // The functions' owners, and what stands behind the functions, where all pass questions 13 and 21 to 25. None says nothing.
    fn survey(&self, chains: &mut Chains) -> Option<Table>
        requires { EmptyFor (count_in (inputs_of self.now.input.now)) chains.old }
        ensures { AllSurveyed (inputs_of self.now.input.now) chains.new.owners.now result × LongFor (count_in (inputs_of self.now.input.now)) chains.new }
    {
        let n = self.input.lists.count();
        let mut t = Table::default();
        for k in 0..n {
            let size = self.function_surveyed(k)?;
            owners::find_owner(self.input, k, chains);
            let o = usize::from(chains.owners[k]);
            t = size_next(self.input, o, k, n, size, t);
        }
        Some(t)
    }

    // The one pass, where sizes are needed.
    fn tried(&self, lent: Counts, chains: &mut Chains) -> Option<Table>
        requires { EmptyFor (count_in (inputs_of self.now.input.now)) chains.old }
        ensures { AllSurveyed (inputs_of self.now.input.now) chains.new.owners.now result × LongFor (count_in (inputs_of self.now.input.now)) chains.new }
    {
        let x = self.input;
        if ample(x.lists.functions, lent) {
            return None;
        }
        self.survey(chains)
    }

    // Every question asked by itself, and the functions written where there is room.
    fn asked(&self, chains: &mut Chains, to: &mut Output) -> Result<Option<Counts>, Refusal>
        requires { EmptyFor (count_in (inputs_of self.now.input.now)) chains.old }
        ensures { WritesTo (listed_answer (inputs_of self.now.input.now) (room_of to.old)) (numbered_at result) to.old to.new }
    {
        let n = self.input.lists.count();
        if !self.input.lists.functions_ok(n) {
            return Err(Question::Lists.into());
        }
        all_asks(self.input)?;
        fitted(self.input, chains, to)
    }

    // One pass where it is enough, and every question by itself where it is not.
    fn answered(&self, chains: &mut Chains, to: &mut Output) -> Result<Option<Counts>, Refusal>
        requires { EmptyFor (count_in (inputs_of self.now.input.now)) chains.old }
        ensures { WritesTo (listed_answer (inputs_of self.now.input.now) (room_of to.old)) (numbered_at result) to.old to.new }
    {
        if let Some(t) = self.tried(to.lent(), chains) {
            let entries = Entries {
                input: self.input,
                owners: chains.owners,
            };
            return entries.roomed(t, to);
        }
        unchain(chains.heads);
        self.asked(chains, to)
    }

    // The same with the lists that the functions' owners are found in, which lie on the stack.
    fn answered_with<const HEADS: usize, const FUNCTIONS: usize>(
        &self,
        to: &mut Output,
    ) -> Result<Option<Counts>, Refusal>
        requires { (count_in (inputs_of self.now.input.now) ≤ FUNCTIONS) × (FUNCTIONS ≤ 65536) × (0 < HEADS) × (HEADS ≤ 65536) }
        ensures { WritesTo (listed_answer (inputs_of self.now.input.now) (room_of to.old)) (numbered_at result) to.old to.new }
    {
        let mut heads = [0u16; HEADS];
        let mut links = [0u16; FUNCTIONS];
        let mut owners = [0u16; FUNCTIONS];
        let mut chains = Chains {
            heads: &mut heads,
            links: &mut links,
            owners: &mut owners,
        };
        self.answered(&mut chains, to)
    }

    // The functions asked, sized and, where there is room, written. Clearing the lists for their owners is to cost little for a few
    // functions: there are three sizes of them.
    fn deliver(&self, to: &mut Output) -> Result<Option<Counts>, Refusal>
        ensures { WritesTo (listed_answer (inputs_of self.now.input.now) (room_of to.old)) (numbered_at result) to.old to.new }
    {
        let n = self.input.lists.count();
        if n <= 64 {
            return self.answered_with::<61, 64>(to);
        }
        if n <= 2048 {
            return self.answered_with::<2039, 2048>(to);
        }
        self.answered_with::<16381, MOST_FUNCTIONS>(to)
    }
}

// A DWARF section of functions: headers and records, their relocations, the call sites, and each function's header place. A
// refusal writes nothing.
// Kept: C lends the lists one by one.
pub fn dwarf(
    s: Section,
    machine: &[u64],
    functions: &[u64],
    rows: &[u64],
    landings: &[u64],
    pairs: &[u64],
    places: &mut [u64],
    bytes: &mut [u8],
    relocations: &mut [u64],
    sites: &mut [u8],
) -> Result<Option<Counts>, Refusal>
    ensures { Writes (dwarf_given s (given_of machine.now functions.now rows.now landings.now pairs.now) (room_in places.old bytes.old relocations.old sites.old)) (numbered_at result) places.old places.new bytes.old bytes.new relocations.old relocations.new sites.old sites.new }
{
    let m = read_machine(machine)?;
    if !sums_ok(functions) {
        return Err(Question::Lists.into());
    }
    let x = Input {
        section: s,
        machine: m,
        lists: Lists {
            functions,
            rows,
            landings,
            pairs,
        },
    };
    let mut to = Output {
        places,
        bytes,
        relocations,
        sites,
    };
    Counted { input: &x }.deliver(&mut to)
}
