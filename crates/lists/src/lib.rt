// The machine, functions and codes out of the lists of numbers, and questions 11, 12 and 13. Ported from rucc-asm/src/unwind.rs (Extent, Named, Relaxed) of tamnd/rucc, changed: see NOTICE.
#![tactic(auto)]

ghost use Rattle.std.specs.Prelude.{◌≡◌, ℕ, Ok, Err, ◌+◌, ◌*◌, ◌≤◌, ◌<◌, length, take, drop, T, leb, eqb};
ghost use Rattle.format.specs.Prelude.{all, pick};
ghost use Rattle.format.specs.declared.question.Question.TheVariants.{Interface};
ghost use Rattle.format.specs.Machine.{machine_ok, machine_of};
ghost use Rattle.format.specs.Lists.{count, field, function_stride, row_stride, landing_stride, pair_stride, prologue_stride, code_stride, most_records, symbol_ok, mark_ok, pointer_ok, row_ok_at, pair_ok_at, code_ok_at, all_in, sum_of, pairs_in, prologue_ok_at, codes_ok, code_at};
ghost use Rattle.format.specs.Coded.{numbered_at};
ghost use Rattle.format.proofs.Asked.{question_of};
ghost use Rattle.lists.specs.Room.{room_for};
ghost use Rattle.lists.specs.Parts.{ranges_ok_at, named_ok_at, relaxed_ok_at, where_labelled, sums_ok};
ghost use Rattle.lists.specs.Given.{count_of, outline_of, function_of, listed_of};
ghost use Rattle.lists.specs.Extents.{lsda_at, personality_at, labels_at, extent_at, landing_in, pair_in, prologue_in};

use format::{Counts, Machine, Question, Refusal, Seh};
pub use numbers::inside;
use numbers::{codes, machine};
use record::Record;
use rows::{ROW_STRIDE, row_ok};

pub mod direct;
pub mod function;
pub mod output;
pub mod record;

// How many numbers a record of each list has.
pub const FUNCTION_STRIDE: usize = 18;

pub const LANDING_STRIDE: usize = 3;

pub const PAIR_STRIDE: usize = 4;

pub const PROLOGUE_STRIDE: usize = 5;

pub const CODE_STRIDE: usize = codes::STRIDE;

// What question 13 takes at most (document 01): functions of a list, and records of each kind that they reach.
pub const MOST_FUNCTIONS: usize = 65536;

pub const MOST_RECORDS: u64 = 1048576;

// The caller's symbols: those below are the library's, and none has more than 32 bits.
const FIRST_SYMBOL: u64 = 16;

const PAST_SYMBOLS: u64 = 4294967296;

// A call pushes fewer bytes than this.
const PUSHED_BYTES: u64 = 2147483648;

// The lists that functions are read from.
#[derive(Clone, Copy)]
pub struct Lists<'a> {
    pub functions: &'a [u64],
    pub rows: &'a [u64],
    pub landings: &'a [u64],
    pub pairs: &'a [u64],
}

// ---- the machine, questions 11 and 12

// Each number of the map is a byte.
fn map_ok(ms: &[u64]) -> bool
    requires { 70 ≤ length ms.now }
    ensures { result ≡ all (λ n. leb n 255) (take 64 (drop 6 ms.now)) }
{
    ms[machine::MAP..machine::STRIDE].iter().all(|n| *n <= 255)
}

// Question 11.
#[tactic(auto, unfolding(format::specs::Machine::machine_ok, format::specs::Machine::machine_of))]
pub fn machine_ok(ms: &[u64]) -> bool
    ensures { result ≡ machine_ok ms.now }
{
    if ms.len() < machine::STRIDE {
        return false;
    }
    if !numbers::is_word(ms[machine::WORD]) {
        return false;
    }
    if ms[machine::PUSHED] % ms[machine::WORD] != 0 {
        return false;
    }
    if PUSHED_BYTES <= ms[machine::PUSHED] {
        return false;
    }
    if rows::REGISTERS <= ms[machine::STACK] {
        return false;
    }
    if rows::REGISTERS <= ms[machine::RET] {
        return false;
    }
    if machine::NO_FRAME_POINTER < ms[machine::FRAME] {
        return false;
    }
    if ms[machine::RESERVED] != 0 {
        return false;
    }
    map_ok(ms)
}

// Question 12: x64 has words of 8 bytes.
pub fn word_ok(m: Machine) -> bool
    ensures { result ≡ eqb m.word 8 }
{
    m.word == 8
}

// The machine of a list.
// Kept: the loop, and no `array::from_fn(|i| ms[machine::MAP + i] as u8)`. What that ensures is a chain of calls (`CallableAtEachTurn`), out of which
// the bytes come by an induction of their own; the loop's invariant is an equation of two `take`s.
pub fn machine_of(ms: &[u64]) -> Machine
    requires { T (machine_ok ms.now) }
    ensures { result ≡ machine_of ms.now }
{
    let mut map = [0; machine::MAPPED];
    for i in 0..machine::MAPPED {
        map[i] = ms[machine::MAP + i] as u8;
    }
    Machine {
        word: ms[machine::WORD],
        pushed: ms[machine::PUSHED],
        stack: ms[machine::STACK],
        ret: ms[machine::RET],
        frame: ms[machine::FRAME],
        map,
    }
}

// The machine of a list that question 11 accepts.
#[tactic(auto, unfolding(format::specs::Prelude::pick))]
pub fn read_machine(ms: &[u64]) -> Result<Machine, Question>
    ensures { result ≡ pick (machine_ok ms.now) (Ok (machine_of ms.now)) (Err Interface) }
{
    if !machine_ok(ms) {
        return Err(Question::Interface);
    }
    Ok(machine_of(ms))
}

// ---- records out of the lists

// Kept: a public function takes a list and a record's place, and says itself that the record lies in the list: to take a `Record` would ask more of
// its caller by type. A test that a closure calls says it too, since the closure's `requires` comes from there.

// The data of a function's exceptions, by the encoding and the symbol of the pointer to it.
#[derive(Clone, Copy)]
pub struct Lsda {
    pub encoding: u64,
    pub symbol: u64,
}

// A personality that the caller names, by the encoding and the symbol of the pointer to its routine.
#[derive(Clone, Copy)]
pub struct Personality {
    pub encoding: u64,
    pub routine: u64,
    pub lsda: Option<Lsda>,
}

// Relaxing labels: that of the function's end, and those of pairs of places.
#[derive(Clone, Copy)]
pub struct Labels {
    pub end: u64,
    pub pairs_at: usize,
    pub pairs: usize,
}

// Function k of the list: its numbers, with the marks as answers. What they say is function_at of the definitions.
// Kept: place and count, and no range, here, in Labels and in Prologue: nothing is asked of what the list says, so the sum may pass what a number
// holds.
#[derive(Clone, Copy)]
pub struct Extent {
    pub symbol: u64,
    pub length: u64,
    pub rows_at: usize,
    pub rows: usize,
    pub landings_at: usize,
    pub landings: usize,
    pub simple: bool,
    pub signal: bool,
    pub personality: Option<Personality>,
    pub relaxed: Option<Labels>,
}

impl Record<'_, FUNCTION_STRIDE> {
    #[tactic(auto, unfolding(crate::specs::Extents::lsda_at, crate::specs::Extents::marked, format::specs::Lists::mark, format::specs::Prelude::pick))]
    fn lsda(&self) -> Option<Lsda>
        ensures { result ≡ lsda_at self.now.list.now self.now.k }
    {
        if self.number(function::LSDA) == 0 {
            return None;
        }
        Some(Lsda {
            encoding: self.number(function::LSDA_ENCODING),
            symbol: self.number(function::LSDA_SYMBOL),
        })
    }

    #[tactic(auto, unfolding(crate::specs::Extents::personality_at, crate::specs::Extents::marked, format::specs::Lists::mark, format::specs::Prelude::pick))]
    fn personality(&self) -> Option<Personality>
        ensures { result ≡ personality_at self.now.list.now self.now.k }
    {
        if self.number(function::PERSONALITY) == 0 {
            return None;
        }
        Some(Personality {
            encoding: self.number(function::ENCODING),
            routine: self.number(function::ROUTINE),
            lsda: self.lsda(),
        })
    }

    #[tactic(auto, unfolding(crate::specs::Extents::labels_at, crate::specs::Extents::marked, format::specs::Lists::mark, format::specs::Prelude::pick))]
    fn labels(&self) -> Option<Labels>
        ensures { result ≡ labels_at self.now.list.now self.now.k }
    {
        if self.number(function::RELAXED) == 0 {
            return None;
        }
        Some(Labels {
            end: self.number(function::END),
            pairs_at: self.number(function::PAIRS_AT) as usize,
            pairs: self.number(function::PAIRS) as usize,
        })
    }

    // Number j, where the function has relaxing labels.
    #[tactic(auto, unfolding(crate::specs::Parts::where_labelled, format::specs::Lists::mark, format::specs::Prelude::pick))]
    fn where_labelled(&self, j: usize) -> u64
        requires { j < function_stride }
        ensures { result ≡ where_labelled self.now.list.now self.now.k j }
    {
        if self.number(function::RELAXED) == 0 {
            return 0;
        }
        self.number(j)
    }

    // Question 13 of the named personality, where there is one.
    #[tactic(auto, unfolding(crate::specs::Parts::named_ok_at, format::specs::Lists::mark_ok, format::specs::Lists::when_marked))]
    fn named_ok(&self) -> bool
        ensures { result ≡ named_ok_at self.now.list.now self.now.k }
    {
        if self.number(function::PERSONALITY) == 0 {
            return true;
        }
        if !pointer_ok(
            self.number(function::ENCODING),
            self.number(function::ROUTINE),
        ) {
            return false;
        }
        if !mark_ok(self.number(function::LSDA)) {
            return false;
        }
        if self.number(function::LSDA) == 0 {
            return true;
        }
        pointer_ok(
            self.number(function::LSDA_ENCODING),
            self.number(function::LSDA_SYMBOL),
        )
    }

    // Question 13 of the symbol, and of where the rows and landings are.
    #[tactic(auto, unfolding(crate::specs::Parts::ranges_ok_at))]
    fn ranges_ok(&self, rows: &[u64], landings: &[u64]) -> bool
        ensures { result ≡ ranges_ok_at self.now.list.now rows.now landings.now self.now.k }
    {
        if !symbol_ok(self.number(0)) {
            return false;
        }
        let at = self.number(function::ROWS_AT);
        let n = self.number(function::ROWS);
        if !inside(at, n, (rows.len() / ROW_STRIDE) as u64) {
            return false;
        }
        inside(
            self.number(function::LANDINGS_AT),
            self.number(function::LANDINGS),
            (landings.len() / LANDING_STRIDE) as u64,
        )
    }

    // Question 13 of the relaxing labels, where there are some, and of the pairs that they reach.
    fn relaxed_ok(&self, pairs: &[u64]) -> bool
        ensures { result ≡ relaxed_ok_at self.now.list.now pairs.now self.now.k }
    {
        if self.number(function::RELAXED) == 0 {
            return true;
        }
        if !symbol_ok(self.number(function::END)) {
            return false;
        }
        let at = self.number(function::PAIRS_AT);
        let n = self.number(function::PAIRS);
        if !inside(at, n, (pairs.len() / PAIR_STRIDE) as u64) {
            return false;
        }
        (at as usize..(at + n) as usize).all(|i| pair_ok(pairs, i))
    }
}

#[tactic(auto, unfolding(crate::specs::Extents::extent_at, format::specs::Lists::mark))]
pub fn extent_at(fs: &[u64], k: usize) -> Extent
    requires { function_stride * k + function_stride ≤ length fs.now }
    ensures { result ≡ extent_at fs.now k }
{
    let f = Record::<FUNCTION_STRIDE> { list: fs, k };
    Extent {
        symbol: f.number(0),
        length: f.number(function::LENGTH),
        rows_at: f.number(function::ROWS_AT) as usize,
        rows: f.number(function::ROWS) as usize,
        landings_at: f.number(function::LANDINGS_AT) as usize,
        landings: f.number(function::LANDINGS) as usize,
        simple: f.number(function::SIMPLE) != 0,
        signal: f.number(function::SIGNAL) != 0,
        personality: f.personality(),
        relaxed: f.labels(),
    }
}

// Landing i: a call's start and length and its pad, from the function's start.
#[derive(Clone, Copy)]
pub struct Landing {
    pub start: u64,
    pub size: u64,
    pub pad: u64,
}

pub fn landing_at(ls: &[u64], i: usize) -> Landing
    requires { landing_stride * i + landing_stride ≤ length ls.now }
    ensures { result ≡ landing_in ls.now i }
{
    let l = Record::<LANDING_STRIDE> { list: ls, k: i };
    Landing {
        start: l.number(0),
        size: l.number(1),
        pad: l.number(2),
    }
}

// Two places of a function and the label at each.
#[derive(Clone, Copy)]
pub struct Pair {
    pub place1: u64,
    pub place2: u64,
    pub symbol1: u64,
    pub symbol2: u64,
}

pub fn pair_at(ps: &[u64], i: usize) -> Pair
    requires { pair_stride * i + pair_stride ≤ length ps.now }
    ensures { result ≡ pair_in ps.now i }
{
    let p = Record::<PAIR_STRIDE> { list: ps, k: i };
    Pair {
        place1: p.number(0),
        place2: p.number(1),
        symbol1: p.number(2),
        symbol2: p.number(3),
    }
}

// Function k of direct codes.
#[derive(Clone, Copy)]
pub struct Prologue {
    pub symbol: u64,
    pub length: u64,
    pub end: u64,
    pub codes_at: usize,
    pub codes: usize,
}

pub fn prologue_at(fs: &[u64], k: usize) -> Prologue
    requires { prologue_stride * k + prologue_stride ≤ length fs.now }
    ensures { result ≡ prologue_in fs.now k }
{
    let f = Record::<PROLOGUE_STRIDE> { list: fs, k };
    Prologue {
        symbol: f.number(0),
        length: f.number(direct::LENGTH),
        end: f.number(direct::END),
        codes_at: f.number(direct::CODES_AT) as usize,
        codes: f.number(direct::CODES) as usize,
    }
}

// The offset where the instruction of code i ends.
#[tactic(auto, unfolding(format::specs::Lists::code_at))]
pub fn code_offset_at(cs: &[u64], i: usize) -> u64
    requires { code_stride * i + code_stride ≤ length cs.now }
    ensures { result ≡ (code_at cs.now i).0 }
{
    Record::<CODE_STRIDE> { list: cs, k: i }.number(0)
}

// Code i.
#[tactic(auto, unfolding(format::specs::Lists::code_at, format::specs::Lists::code_of, format::specs::Lists::mark, format::specs::Prelude::pick))]
pub fn code_at(cs: &[u64], i: usize) -> Seh
    requires { code_stride * i + code_stride ≤ length cs.now }
    ensures { result ≡ (code_at cs.now i).1 }
{
    let c = Record::<CODE_STRIDE> { list: cs, k: i };
    let kind = c.number(direct::CODE_KIND);
    let reg = c.number(direct::CODE_REGISTER);
    let value = c.number(direct::CODE_VALUE).cast_signed();
    match kind {
        codes::PUSH => Seh::Push(reg),
        codes::ALLOC => Seh::Alloc(value),
        codes::FRAME => Seh::Frame(reg, value),
        _ => Seh::Save(reg, c.number(direct::CODE_VECTOR) != 0, value),
    }
}

// ---- question 13 of one record

// A caller's symbol.
#[tactic(auto, unfolding(format::specs::Lists::symbol_ok))]
pub fn symbol_ok(s: u64) -> bool
    ensures { result ≡ symbol_ok s }
{
    if s < FIRST_SYMBOL {
        return false;
    }
    s < PAST_SYMBOLS
}

// A mark is 0 or 1.
#[tactic(auto, unfolding(format::specs::Lists::mark_ok))]
fn mark_ok(n: u64) -> bool
    ensures { result ≡ mark_ok n }
{
    n <= 1
}

// An encoding byte and a symbol.
#[tactic(auto, unfolding(format::specs::Lists::pointer_ok))]
fn pointer_ok(encoding: u64, symbol: u64) -> bool
    ensures { result ≡ pointer_ok encoding symbol }
{
    if 255 < encoding {
        return false;
    }
    symbol_ok(symbol)
}

// Both symbols of pair i.
#[tactic(auto, unfolding(format::specs::Lists::pair_ok_at))]
fn pair_ok(ps: &[u64], i: usize) -> bool
    requires { pair_stride * i + pair_stride ≤ length ps.now }
    ensures { result ≡ pair_ok_at ps.now i }
{
    let p = Record::<PAIR_STRIDE> { list: ps, k: i };
    if !symbol_ok(p.number(2)) {
        return false;
    }
    symbol_ok(p.number(3))
}

// The operands of code i: only those that its kind has.
#[tactic(auto, unfolding(format::specs::Lists::code_ok_at, format::specs::Lists::code_ok, format::specs::Prelude::pick))]
fn code_ok(cs: &[u64], i: usize) -> bool
    requires { code_stride * i + code_stride ≤ length cs.now }
    ensures { result ≡ code_ok_at cs.now i }
{
    let c = Record::<CODE_STRIDE> { list: cs, k: i };
    let vector = c.number(direct::CODE_VECTOR);
    match c.number(direct::CODE_KIND) {
        codes::PUSH => vector == 0 && c.number(direct::CODE_VALUE) == 0,
        codes::ALLOC => vector == 0 && c.number(direct::CODE_REGISTER) == 0,
        codes::FRAME => vector == 0,
        codes::SAVE => vector <= 1,
        _ => false,
    }
}

// ---- question 13 of the records that a function reaches

// The n rows from `at` on.
pub fn rows_ok(rows: &[u64], at: usize, n: usize) -> bool
    requires { at + n ≤ count row_stride rows.now }
    ensures { result ≡ all_in (row_ok_at rows.now) at n }
{
    (at..at + n).all(|i| row_ok(rows, i))
}

// The record of direct codes k, and the codes that it reaches.
fn prologue_ok(fs: &[u64], codes: &[u64], k: usize) -> bool
    requires { prologue_stride * k + prologue_stride ≤ length fs.now }
    ensures { result ≡ prologue_ok_at fs.now codes.now k }
{
    let f = Record::<PROLOGUE_STRIDE> { list: fs, k };
    if !symbol_ok(f.number(0)) {
        return false;
    }
    let at = f.number(direct::CODES_AT);
    let n = f.number(direct::CODES);
    if !inside(at, n, (codes.len() / CODE_STRIDE) as u64) {
        return false;
    }
    (at as usize..(at + n) as usize).all(|i| code_ok(codes, i))
}

// ---- question 13 of the lists

// What `number` says of each of n records, summed, is at most the most of records.
fn sum_fits<F: Fn(usize) -> u64>(number: F, n: usize) -> bool
    requires { (k : ℕ) → k < n → F.pre number k }
    ensures { (of : ℕ → ℕ) → ((k x : ℕ) → k < n → F.post number k x → x ≡ of k) → result ≡ leb (sum_of of 0 n) most_records }
{
    let mut sum = 0;
    for k in 0..n {
        let x = number(k);
        if MOST_RECORDS - sum < x {
            return false;
        }
        sum += x;
    }
    true
}

// Number j of n records, summed, is at most the most of records.
pub fn sum_ok(xs: &[u64], stride: usize, j: usize, n: usize) -> bool
    requires { (j < stride) × (stride * n ≤ length xs.now) }
    ensures { result ≡ leb (sum_of (λ k. field stride xs.now k j) 0 n) most_records }
{
    sum_fits(|k| xs[stride * k + j], n)
}

// Number j of function k, where it has relaxing labels.
pub fn where_labelled(fs: &[u64], k: usize, j: usize) -> u64
    requires { (j < function_stride) × (function_stride * k + function_stride ≤ length fs.now) }
    ensures { result ≡ where_labelled fs.now k j }
{
    Record::<FUNCTION_STRIDE> { list: fs, k }.where_labelled(j)
}

// The pairs of n functions, summed, are at most the most of records.
#[tactic(auto, unfolding(crate::specs::Parts::where_labelled, format::specs::Lists::pairs_in))]
fn pairs_sum_ok(fs: &[u64], n: usize) -> bool
    requires { function_stride * n ≤ length fs.now }
    ensures { result ≡ leb (sum_of (pairs_in fs.now) 0 n) most_records }
{
    sum_fits(|k| where_labelled(fs, k, function::PAIRS), n)
}

// Question 13, as far as the functions are counted, and what they reach.
#[tactic(auto, unfolding(crate::specs::Parts::sums_ok))]
pub fn sums_ok(fs: &[u64]) -> bool
    ensures { result ≡ sums_ok fs.now }
{
    let n = fs.len() / FUNCTION_STRIDE;
    if MOST_FUNCTIONS < n {
        return false;
    }
    if !sum_ok(fs, FUNCTION_STRIDE, function::ROWS, n) {
        return false;
    }
    if !sum_ok(fs, FUNCTION_STRIDE, function::LANDINGS, n) {
        return false;
    }
    pairs_sum_ok(fs, n)
}

impl Lists<'_> {
    // How many functions there are.
    pub fn count(&self) -> usize
        ensures { result ≡ count_of self.now }
    {
        self.functions.len() / FUNCTION_STRIDE
    }

    // Function k, and the records that it reaches but its rows.
    #[tactic(auto, unfolding(crate::specs::Parts::outline_ok_at, format::specs::Lists::mark_ok))]
    pub fn outline_ok(&self, k: usize) -> bool
        requires { function_stride * k + function_stride ≤ length self.now.functions.now }
        ensures { result ≡ outline_of self.now k }
    {
        let f = Record::<FUNCTION_STRIDE> {
            list: self.functions,
            k,
        };
        if !f.ranges_ok(self.rows, self.landings) {
            return false;
        }
        if !mark_ok(f.number(function::SIMPLE)) {
            return false;
        }
        if !mark_ok(f.number(function::SIGNAL)) {
            return false;
        }
        if !mark_ok(f.number(function::PERSONALITY)) {
            return false;
        }
        if !f.named_ok() {
            return false;
        }
        if !mark_ok(f.number(function::RELAXED)) {
            return false;
        }
        f.relaxed_ok(self.pairs)
    }

    // Function k, and the records that it reaches.
    fn function_ok(&self, k: usize) -> bool
        requires { function_stride * k + function_stride ≤ length self.now.functions.now }
        ensures { result ≡ function_of self.now k }
    {
        if !self.outline_ok(k) {
            return false;
        }
        let f = Record::<FUNCTION_STRIDE> {
            list: self.functions,
            k,
        };
        rows_ok(
            self.rows,
            f.number(function::ROWS_AT) as usize,
            f.number(function::ROWS) as usize,
        )
    }

    // The first n functions.
    pub fn functions_ok(&self, n: usize) -> bool
        requires { function_stride * n ≤ length self.now.functions.now }
        ensures { result ≡ all_in (function_of self.now) 0 n }
    {
        (0..n).all(|k| self.function_ok(k))
    }

    // Question 13 of the lists of functions.
    #[tactic(auto, unfolding(format::specs::Lists::lists_ok, crate::specs::Parts::sums_ok))]
    pub fn ok(&self) -> bool
        ensures { result ≡ listed_of self.now }
    {
        if !sums_ok(self.functions) {
            return false;
        }
        self.functions_ok(self.count())
    }
}

// The first n records of direct codes.
fn prologues_ok(fs: &[u64], codes: &[u64], n: usize) -> bool
    requires { prologue_stride * n ≤ length fs.now }
    ensures { result ≡ all_in (prologue_ok_at fs.now codes.now) 0 n }
{
    (0..n).all(|k| prologue_ok(fs, codes, k))
}

// Question 13 of the lists of direct codes.
#[tactic(auto, unfolding(format::specs::Lists::codes_ok))]
pub fn codes_ok(fs: &[u64], codes: &[u64]) -> bool
    ensures { result ≡ codes_ok fs.now codes.now }
{
    let n = fs.len() / PROLOGUE_STRIDE;
    if MOST_FUNCTIONS < n {
        return false;
    }
    if !sum_ok(fs, PROLOGUE_STRIDE, direct::CODES, n) {
        return false;
    }
    prologues_ok(fs, codes, n)
}

// ---- room

// Questions 51 to 54: what is needed fits what is lent, in the elements of the lent lists.
pub fn room(needed: Counts, lent: Counts) -> Result<(), Refusal>
    ensures { numbered_at result ≡ question_of (room_for needed lent) }
{
    if lent.places < needed.places {
        return Err(Question::PlacesRoom.into());
    }
    if lent.bytes < needed.bytes {
        return Err(Question::BytesRoom.into());
    }
    if lent.relocations < needed.relocations {
        return Err(Question::RelocationsRoom.into());
    }
    if lent.sites < needed.sites {
        return Err(Question::OtherRoom.into());
    }
    Ok(())
}
