// One function of the lists that the writer of Windows' unwind data on ARM64 takes: questions 81 to 83, the packed word, and the record. Ported from
// rucc-asm/src/xdata.rs (describe) of tamnd/rucc, changed: see NOTICE.
#![tactic(auto)]

ghost use Rattle.std.specs.Prelude.{◌≡◌, true, eqb, ◌&&◌, ◌||◌, ◌+◌, ◌-◌, ◌*◌, ◌^◌, ◌≤◌, ◌<◌, length, Some, None, IfSome};
ghost use Rattle.format.specs.Prelude.{pick};
ghost use Rattle.format.specs.Lists.{field, all_in};
ghost use Rattle.std.specs.Option.{unwrap_or};
ghost use Rattle.format.specs.Coded.{numbered_at};
ghost use Rattle.format.proofs.Asked.{question_of};
ghost use Rattle.format.proofs.Wrote.{Wrote};
ghost use Rattle.arm64.specs.Lists.{function_stride, epilogue_stride};
ghost use Rattle.arm64.specs.Records.{only_in};
ghost use Rattle.arm64.specs.Packing.{candidate, packed_word};
ghost use Rattle.arm64.specs.Runs.{backwards, leads, runs_bytes};
ghost use Rattle.arm64.specs.Writer.{prologue_run, instructions, is_packed, info_of, function_asks};
ghost use Rattle.arm64_simple.specs.Saves.{saves};
ghost use Rattle.arm64_simple.specs.Written.{saved_in};
ghost use Rattle.arm64_function.specs.Listed.{function_in, ListedIn, FineIn};
ghost use Rattle.arm64_function.specs.Record.{Whole};
ghost use Rattle.arm64_function.specs.Own.{prologue_at, epilogue_at, parts_at, Ready, start_ok_at, fits_at, length_ok, held_to, index_in};

use arm64::fields::{self, EPILOGUE_STRIDE, FUNCTION_STRIDE};
use arm64::{Epilogues, Part, header_bits, limits};
use arm64_header::Header;
use arm64_lists::Lists;
use arm64_simple::{Codes, Run};
use format::{Question, Refusal};
use lists::record::Record;

// Where an epilogue's record has its start.
const START: usize = 0;

// A function's codes: its prologue's, and its epilogues from `first` to `end`.
#[derive(Clone, Copy)]
pub struct Parts {
    pub prologue: Run,
    pub first: usize,
    pub end: usize,
}

fn prologue_at(function: &Record<FUNCTION_STRIDE>) -> Run
    ensures { result ≡ prologue_at function.now.list.now function.now.k }
{
    Run {
        at: function.number(fields::PROLOGUE_AT) as usize,
        count: function.number(fields::PROLOGUE) as usize,
        part: Part::Prologue,
    }
}

fn epilogue_at(epilogue: &Record<EPILOGUE_STRIDE>) -> Run
    ensures { result ≡ epilogue_at epilogue.now.list.now epilogue.now.k }
{
    Run {
        at: epilogue.number(fields::CODES_AT) as usize,
        count: epilogue.number(fields::CODES) as usize,
        part: Part::Epilogue,
    }
}

fn parts_at(function: &Record<FUNCTION_STRIDE>) -> Parts
    requires { field function_stride function.now.list.now function.now.k 4 + field function_stride function.now.list.now function.now.k 5 < 2 ^ 64 }
    ensures { result ≡ parts_at function.now.list.now function.now.k }
{
    let prologue = prologue_at(function);
    let first = function.number(fields::EPILOGUES_AT) as usize;
    let end = first + function.number(fields::EPILOGUES) as usize;
    Parts {
        prologue,
        first,
        end,
    }
}

// The index in the word at `at`.
#[tactic(auto, unfolding(crate::specs::Own::index_in))]
fn index_in(out: &[u8], at: usize) -> usize
    requires { at + 4 ≤ length out.now }
    ensures { result ≡ index_in out.now at }
{
    usize::from(u16::from_le_bytes([out[at + 2], out[at + 3]]) / 64)
}

// An epilogue's index, and the bytes of codes once its run is written.
#[derive(Clone, Copy)]
pub struct Scope {
    pub index: usize,
    pub next: usize,
}

// What the header says of the epilogues, and how many bytes of codes there are.
#[derive(Clone, Copy)]
pub struct Shape {
    pub epilogues: Epilogues,
    pub codes: usize,
}

// Question 81.
fn length_ok(size: u64) -> bool
    ensures { result ≡ length_ok size }
{
    if size % 4 != 0 {
        return false;
    }
    size / 4 <= limits::LONGEST
}

// A function of the lists: the epilogues and the codes, which of them are its own, and its size in bytes.
#[derive(Clone, Copy)]
struct Function<'a> {
    epilogues: &'a [u64],
    codes: &'a [u64],
    parts: Parts,
    size: u64,
    ghost ready: { Ready epilogues.now codes.now parts },
}

impl<'a> Function<'a> {
    ghost use Rattle.arm64_function.specs.Function.{Taken, Among, OnlyOne, prologue_of, codes_of, index_of, packed_of, values_ok_of};

    // Function k of the lists.
    fn of(x: &Lists<'a>, k: usize) -> Function<'a>
        requires { ListedIn x.now k }
        ensures { Taken x.now k result }
    {
        let record = Record::<FUNCTION_STRIDE> {
            list: x.functions,
            k,
        };
        Function {
            epilogues: x.epilogues,
            codes: x.codes,
            parts: parts_at(&record),
            size: record.number(fields::LENGTH),
        }
    }

    fn epilogue(&self, i: usize) -> Epilogue<'a>
        requires { Among self.now i }
        ensures { (result.function ≡ self.now) × (result.i ≡ i) }
    {
        Epilogue { function: *self, i }
    }

    // ---- its prologue

    fn prologue(&self) -> Codes<'a>
        ensures { (saved_in result ≡ saves self.now.codes.now self.now.parts.prologue) × (result.run.count ≡ self.now.parts.prologue.count) }
    {
        Codes {
            list: self.codes,
            run: self.parts.prologue,
        }
    }

    // How many bytes its codes have, without their end.
    fn prologue_size(&self) -> usize
        ensures { (result ≡ length (backwards (prologue_of self.now))) × (result < 2 ^ 62) }
    {
        self.prologue().size()
    }

    // ---- the packed word

    // The packed word of a function with one epilogue.
    fn packed_one(&self) -> Option<u64>
        requires { OnlyOne self.now }
        ensures { result ≡ packed_of self.now }
    {
        let only = self.epilogue(self.parts.first);
        if !only.shares() {
            return None;
        }
        arm64_packing::packed(self.size / 4, &self.prologue(), &only.run())
    }

    // ---- questions 82 and 83

    fn starts_ok(&self) -> bool
        ensures { result ≡ all_in (start_ok_at self.now.epilogues.now self.now.size) self.now.parts.first (self.now.parts.end - self.now.parts.first) }
    {
        (self.parts.first..self.parts.end).all(|i| self.epilogue(i).start_ok())
    }

    // The values of the epilogues' codes.
    fn runs_fit(&self) -> bool
        ensures { result ≡ all_in (fits_at self.now.epilogues.now self.now.codes.now) self.now.parts.first (self.now.parts.end - self.now.parts.first) }
    {
        (self.parts.first..self.parts.end).all(|i| self.epilogue(i).run().fit())
    }

    // Question 83: values that no field holds. More epilogues than a header counts are answered before their runs are compared.
    fn values_ok(&self) -> bool
        ensures { result ≡ values_ok_of self.now }
    {
        if !self.prologue().fit() {
            return false;
        }
        if !self.runs_fit() {
            return false;
        }
        if limits::MOST_EPILOGUES < self.parts.end - self.parts.first {
            return false;
        }
        self.codes_size().is_some()
    }

    // How many bytes of codes there are, where a record holds them.
    fn codes_size(&self) -> Option<usize>
        ensures { result ≡ held_to (length (codes_of self.now)) }
    {
        let mut size = self.prologue_size() + 1;
        for i in self.parts.first..self.parts.end {
            if limits::MOST_CODES < size {
                return None;
            }
            size += self.epilogue(i).own_size();
        }
        (size <= limits::MOST_CODES).then_some(size)
    }

    // ---- the record

    // The index of the only epilogue.
    fn only_index(&self) -> usize
        requires { self.now.parts.end - self.now.parts.first ≡ 1 }
        ensures { result ≡ index_of self.now self.now.parts.first }
    {
        let only = self.epilogue(self.parts.first);
        if only.leads() {
            return only.leading_index();
        }
        self.prologue_size() + 1
    }
}

// Epilogue i of a function.
#[derive(Clone, Copy)]
struct Epilogue<'a> {
    function: Function<'a>,
    i: usize,
    ghost among: { (function.parts.first ≤ i) × (i < function.parts.end) },
}

impl<'a> Epilogue<'a> {
    ghost use Rattle.arm64_function.specs.Function.{prologue_of, run_of, own_of, index_of, NearestOf, KnownOf, AheadOf, shared_of};

    // Its record in the list.
    fn record(&self) -> Record<'a, EPILOGUE_STRIDE>
        ensures { (result.list.now ≡ self.now.function.epilogues.now) × (result.k ≡ self.now.i) }
    {
        Record {
            list: self.function.epilogues,
            k: self.i,
        }
    }

    // Where it starts, in bytes.
    fn start(&self) -> u64
        ensures { result ≡ field epilogue_stride self.now.function.epilogues.now self.now.i 0 }
    {
        self.record().number(START)
    }

    fn run(&self) -> Codes<'a>
        ensures { (saved_in result ≡ saves self.now.function.codes.now (epilogue_at self.now.function.epilogues.now self.now.i)) × (result.run.count ≡ field epilogue_stride self.now.function.epilogues.now self.now.i 2) }
    {
        Codes {
            list: self.function.codes,
            run: epilogue_at(&self.record()),
        }
    }

    // Whether its instructions and a ret are the function's last.
    fn ends(&self) -> bool
        requires { field epilogue_stride self.now.function.epilogues.now self.now.i 0 ≤ self.now.function.size }
        ensures { result ≡ eqb (instructions (self.now.function.size - field epilogue_stride self.now.function.epilogues.now self.now.i 0)) (field epilogue_stride self.now.function.epilogues.now self.now.i 2 + 1) }
    {
        (self.function.size - self.start()) / 4 == self.run().run.count as u64 + 1
    }

    // How many bytes its codes have, without their end.
    fn size(&self) -> usize
        ensures { (result ≡ length (backwards (run_of self.now.function self.now.i))) × (result < 2 ^ 62) }
    {
        self.run().size()
    }

    // Whether its run leads in the prologue's.
    fn leads(&self) -> bool
        ensures { result ≡ leads (run_of self.now.function self.now.i) (prologue_of self.now.function) }
    {
        arm64_sharing::leads(&self.run(), &self.function.prologue())
    }

    // Whether it shares the prologue's codes and, where it is the first, E may be set: its instructions and a ret are the function's last, and the short
    // header holds its index and the words of codes, which are the prologue's alone.
    fn shares(&self) -> bool
        requires { field epilogue_stride self.now.function.epilogues.now self.now.i 0 ≤ self.now.function.size }
        ensures { result ≡ shared_of self.now.function self.now.i (instructions (self.now.function.size - field epilogue_stride self.now.function.epilogues.now self.now.i 0)) }
    {
        if !self.ends() {
            return false;
        }
        if !self.leads() {
            return false;
        }
        let whole = self.function.prologue_size();
        if limits::SHORT_PROLOGUE < whole {
            return false;
        }
        whole - self.size() <= limits::SHORT_INDEX
    }

    // Question 82: its start.
    fn start_ok(&self) -> bool
        ensures { result ≡ start_ok_at self.now.function.epilogues.now self.now.function.size self.now.i }
    {
        let start = self.start();
        if start % 4 != 0 {
            return false;
        }
        start < self.function.size
    }

    // ---- runs of their own

    // The nearest epilogue in front of it with the same run. The search goes backwards: epilogues with few runs among them find theirs soon.
    fn nearest(&self) -> Option<usize>
        ensures { NearestOf self.now.function self.now.i (unwrap_or result self.now.i) × IfSome result (λ j. j < self.now.i) }
    {
        let run = self.run();
        (self.function.parts.first..self.i).rev().find(|j| arm64_sharing::same_run(
            &run,
            &self.function.epilogue(*j).run(),
        ))
    }

    // How many bytes its run adds to the codes: none where it is not its own.
    fn own_size(&self) -> usize
        ensures { (result ≡ length (runs_bytes (own_of self.now.function self.now.i))) × (result < 2 ^ 63) }
    {
        if self.leads() {
            return 0;
        }
        if self.nearest().is_some() {
            return 0;
        }
        self.size() + 1
    }

    // ---- the epilogues' words

    // The index of an epilogue whose run leads in the prologue's.
    fn leading_index(&self) -> usize
        requires { leads (run_of self.now.function self.now.i) (prologue_of self.now.function) ≡ true }
        ensures { result ≡ index_of self.now.function self.now.i }
    {
        self.function.prologue_size() - self.size()
    }

    // The index where the words in front of its own stand from `to` on: a run that was there before has its index in the word.
    fn scope_of(&self, out: &[u8], to: usize, next: usize) -> Scope
        requires { AheadOf self.now.function next self.now.i × (next ≤ 1020) × KnownOf self.now.function out.now to self.now.i × (to + 4 * (self.now.i - self.now.function.parts.first) ≤ length out.now) }
        ensures { (result.index ≡ index_of self.now.function self.now.i) × (result.next ≡ next + length (runs_bytes (own_of self.now.function self.now.i))) }
    {
        if self.leads() {
            let index = self.leading_index();
            return Scope { index, next };
        }
        if let Some(j) = self.nearest() {
            let index = index_in(out, to + 4 * (j - self.function.parts.first));
            return Scope { index, next };
        }
        let size = self.size() + 1;
        Scope {
            index: next,
            next: next + size,
        }
    }
}

// A function of which every question has been asked.
#[derive(Clone, Copy)]
struct Checked<'a> {
    function: Function<'a>,
    ghost whole: { Whole function.epilogues.now function.codes.now function.parts function.size },
}

impl<'a> Checked<'a> {
    ghost use Rattle.arm64_function.specs.Function.{Taken, Among, own_of, owns_of, codes_of, index_of, words_of, scopes_of, single_of, record_of, ShapedOf, header_of};

    // Function k of the lists.
    fn of(x: &Lists<'a>, k: usize) -> Checked<'a>
        requires { FineIn x.now k }
        ensures { Taken x.now k result.function }
    {
        Checked {
            function: Function::of(x, k),
        }
    }

    // E: the index of an only epilogue at the function's end, where the short header holds it and the codes.
    fn single_index(&self, codes: usize) -> Option<u64>
        requires { (codes ≡ length (codes_of self.now.function)) }
        ensures { result ≡ pick (single_of self.now.function) (Some (index_of self.now.function self.now.function.parts.first)) None }
    {
        let p = self.function.parts;
        if p.end - p.first != 1 {
            return None;
        }
        if limits::SHORT_CODES < codes {
            return None;
        }
        let index = self.function.only_index();
        if limits::SHORT_INDEX < index {
            return None;
        }
        if !self.function.epilogue(p.first).ends() {
            return None;
        }
        Some(index as u64)
    }

    fn shape(&self) -> Shape
        ensures { ShapedOf self.now.function result }
    {
        let codes = self.function.codes_size().unwrap();
        match self.single_index(codes) {
            Some(index) => Shape {
                epilogues: Epilogues::Single(index),
                codes,
            },
            None => Shape {
                epilogues: Epilogues::Scoped(
                    (self.function.parts.end - self.function.parts.first) as u64,
                ),
                codes,
            },
        }
    }

    // A record's header.
    fn header(&self, s: Shape) -> Header
        requires { s.codes ≤ 1020 }
        ensures { result ≡ header_of self.now.function s }
    {
        Header {
            length: self.function.size / 4,
            epilogues: s.epilogues,
            words: ((s.codes + 3) / 4) as u64,
        }
    }

    // Kept: a match here and one in `put_words`, and no method beside `Epilogues::count`: `put_words` writes or not, by its answer's place, so that a method for
    // the number of words would have this one caller, and its answer a case for each form as the two here.
    fn record_size(&self) -> usize
        ensures { (result ≡ length (record_of self.now.function)) × (result ≤ 300000) }
    {
        let s = self.shape();
        let header = self.header(s);
        let size = header.size() + 4 * header.words as usize;
        match s.epilogues {
            Epilogues::Single(_) => size,
            Epilogues::Scoped(_) => size
                + 4 * (self.function.parts.end - self.function.parts.first),
        }
    }

    // ---- what is written

    // Kept: the list and the place stand side by side in the seven writers from here on and in the four that they call (put_run, Header::put, pad, le): a
    // struct of the two would make each of the eleven contracts say beside the bytes that the same list is lent still (its ghost_name), where `Wrote` of a
    // slice says all.
    // The run of epilogue i, where it is its own.
    fn put_own(&self, out: &mut [u8], at: usize, i: usize) -> usize
        requires { Among self.now.function i × (at + length (runs_bytes (own_of self.now.function i)) ≤ length out.old) }
        ensures { Wrote out.old out.new at result (runs_bytes (own_of self.now.function i)) }
    {
        let epilogue = self.function.epilogue(i);
        let size = epilogue.own_size();
        if size == 0 {
            return at;
        }
        arm64_sharing::put_run(out, at, size - 1, &epilogue.run())
    }

    // The runs of the epilogues that have their own.
    fn put_owns(&self, out: &mut [u8], at: usize) -> usize
        requires { (at + length (runs_bytes (owns_of self.now.function)) ≤ length out.old) }
        ensures { Wrote out.old out.new at result (runs_bytes (owns_of self.now.function)) }
    {
        let mut q = at;
        for i in self.function.parts.first..self.function.parts.end {
            q = self.put_own(out, q, i);
        }
        q
    }

    // The prologue's codes, and those.
    fn put_codes(&self, out: &mut [u8], at: usize) -> usize
        requires { (at + length (codes_of self.now.function) ≤ length out.old) }
        ensures { Wrote out.old out.new at result (codes_of self.now.function) }
    {
        let q = arm64_sharing::put_run(
            out,
            at,
            self.function.prologue_size(),
            &self.function.prologue(),
        );
        self.put_owns(out, q)
    }

    // The words of the epilogues.
    fn put_scopes(&self, out: &mut [u8], to: usize) -> usize
        requires { (to + 4 * (self.now.function.parts.end - self.now.function.parts.first) ≤ length out.old) }
        ensures { Wrote out.old out.new to result (words_of self.now.function) }
    {
        let mut next = self.function.prologue_size() + 1;
        let mut q = to;
        for i in self.function.parts.first..self.function.parts.end {
            let epilogue = self.function.epilogue(i);
            let s = epilogue.scope_of(out, to, next);
            q = leb::le(
                out,
                q,
                4,
                epilogue.start() / 4 + header_bits::INDEX * s.index as u64,
            );
            next = s.next;
        }
        q
    }

    // The epilogues' words, where E is not set.
    fn put_words(&self, out: &mut [u8], at: usize, epilogues: Epilogues) -> usize
        requires { (at + length (scopes_of self.now.function (only_in epilogues)) ≤ length out.old) }
        ensures { Wrote out.old out.new at result (scopes_of self.now.function (only_in epilogues)) }
    {
        match epilogues {
            Epilogues::Single(_) => at,
            Epilogues::Scoped(_) => self.put_scopes(out, at),
        }
    }

    fn put_record(&self, out: &mut [u8], at: usize) -> usize
        requires { (at + length (record_of self.now.function) ≤ length out.old) }
        ensures { Wrote out.old out.new at result (record_of self.now.function) }
    {
        let s = self.shape();
        let header = self.header(s);
        let a = header.put(out, at);
        let b = self.put_words(out, a, s.epilogues);
        let c = self.put_codes(out, b);
        arm64_header::pad(out, c, 4 * header.words as usize - s.codes)
    }
}

// ---- what the table asks of function k

// The packed word of function k.
pub fn packed_word(x: &Lists, k: usize) -> Option<u64>
    requires { FineIn x.now k }
    ensures { result ≡ pick (is_packed (function_in x.now k)) (Some (packed_word (candidate (instructions (function_in x.now k).size) (prologue_run (function_in x.now k))))) None }
{
    let f = Function::of(x, k);
    if f.parts.end - f.parts.first != 1 {
        return None;
    }
    f.packed_one()
}

// Questions 81 to 83: the position is 0.
pub fn function_asks(x: &Lists, k: usize) -> Result<(), Refusal>
    requires { ListedIn x.now k }
    ensures { numbered_at result ≡ question_of (function_asks k (function_in x.now k)) }
{
    let f = Function::of(x, k);
    if !length_ok(f.size) {
        return Err(Refusal::from(Question::Arm64Length));
    }
    if !f.starts_ok() {
        return Err(Refusal::from(Question::Arm64Epilogues));
    }
    if !f.values_ok() {
        return Err(Refusal::from(Question::Arm64Values));
    }
    Ok(())
}

// How many bytes a function's record has: none where it is packed.
pub fn info_size(x: &Lists, k: usize) -> usize
    requires { FineIn x.now k }
    ensures { (result ≡ length (info_of (function_in x.now k))) × (result ≤ 300000) }
{
    if packed_word(x, k).is_some() {
        return 0;
    }
    Checked::of(x, k).record_size()
}

// A function's record.
pub fn put_info(out: &mut [u8], at: usize, x: &Lists, k: usize) -> usize
    requires { FineIn x.now k × (at + length (info_of (function_in x.now k)) ≤ length out.old) }
    ensures { Wrote out.old out.new at result (info_of (function_in x.now k)) }
{
    if packed_word(x, k).is_some() {
        return at;
    }
    Checked::of(x, k).put_record(out, at)
}
