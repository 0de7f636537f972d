// Runs of unwind codes of Windows on ARM64 as they are written, in the order in which they save: shorter codes that say the same, question 83, sizes and
// bytes. Ported from rucc-asm/src/xdata.rs (simplify, size, in_prologue) of tamnd/rucc, changed: see NOTICE.
#![tactic(auto)]

ghost use Rattle.std.specs.Prelude.{◌≡◌, true, ◌+◌, ◌*◌, ◌^◌, ◌≤◌, ◌<◌, length};
ghost use Rattle.format.proofs.Wrote.{Wrote};
ghost use Rattle.arm64.specs.Codes.{k_regp_x};
ghost use Rattle.arm64.specs.Runs.{shorter, pair_in, has_next, next_pair, resolved, next_or, simple, pair_behind, run_fits, backwards, no_pair, leads};
ghost use Rattle.arm64_simple.specs.Saves.{place_of, saved_at, Inside};

use arm64::{Code, Part, fields};

// Where the codes of a run stand in a list: an epilogue's save backwards.
// Kept: places and no slice of the list: `place_of` is one function for both directions, where a slice would be gone over from its front or from its back
// by two iterators of two types; and the definitions of runs (`saves` here, `epilogue_at` of arm64_function and those on them) have the place in the list.
#[derive(Clone, Copy)]
pub struct Run {
    pub at: usize,
    pub count: usize,
    pub part: Part,
}

// A run in the list that holds its codes.
#[derive(Clone, Copy)]
pub struct Codes<'a> {
    pub list: &'a [u64],
    pub run: Run,
    pub ghost inside: { Inside list.now run },
}

// What stands before a run's first code: no pair.
// Kept: a code that is no pair, and no None, here and where `next_pair` answers SaveNext: `pair_in` and `next_pair` of the definitions have these codes. With
// Option<Code> the contracts of the seven functions on pairs would each say `unwrap_or b no_pair`, the three public ones take another type, and a Step
// carry 8 bytes more in the loops that are timed.
pub const NO_PAIR: Code = Code {
    kind: arm64::NOP,
    register: 0,
    offset: 0,
};

// ---- one code

fn shorter_push(c: Code) -> Code
    requires { c.kind ≡ k_regp_x }
    ensures { result ≡ shorter c }
{
    if c.register == 29 {
        return Code::new(arm64::FPLR_X, 0, c.offset);
    }
    if c.register != 19 {
        return c;
    }
    if 248 < c.offset {
        return c;
    }
    Code::new(arm64::R19R20X, 0, c.offset)
}

fn shorter(c: Code) -> Code
    ensures { result ≡ shorter c }
{
    if c.kind == arm64::REGP {
        if c.register == 29 {
            return Code::new(arm64::FPLR, 0, c.offset);
        }
        return c;
    }
    if c.kind == arm64::REGP_X {
        return shorter_push(c);
    }
    if c.kind == arm64::ADD_FP {
        if c.offset == 0 {
            return Code::new(arm64::SET_FP, 0, 0);
        }
        return c;
    }
    c
}

fn pair_in(c: Code) -> Code
    ensures { result ≡ pair_in c }
{
    if c.kind == arm64::REGP {
        return c;
    }
    if c.kind == arm64::FREGP {
        return c;
    }
    if c.kind == arm64::R19R20X {
        return Code::new(arm64::REGP, 19, 0);
    }
    if c.kind == arm64::REGP_X {
        return Code::new(arm64::REGP, c.register, 0);
    }
    if c.kind == arm64::FREGP_X {
        return Code::new(arm64::FREGP, c.register, 0);
    }
    Code::new(arm64::NOP, 0, 0)
}

fn has_next(b: Code) -> bool
    ensures { result ≡ has_next b }
{
    if 28 < b.register {
        return false;
    }
    if 1023 < b.offset {
        return false;
    }
    if b.kind == arm64::REGP {
        return true;
    }
    b.kind == arm64::FREGP
}

fn next_pair(b: Code) -> Code
    ensures { result ≡ next_pair b }
{
    if has_next(b) {
        return Code::new(b.kind, b.register + 2, b.offset + 16);
    }
    Code::new(arm64::SAVE_NEXT, 0, 0)
}

pub fn resolved(b: Code, c: Code) -> Code
    ensures { result ≡ resolved b c }
{
    if c.kind == arm64::SAVE_NEXT {
        return next_pair(b);
    }
    c
}

fn next_or(b: Code, c: Code) -> Code
    ensures { result ≡ next_or b c }
{
    if c.kind != arm64::REGP {
        return c;
    }
    if next_pair(b) == c {
        return Code::new(arm64::SAVE_NEXT, 0, 0);
    }
    c
}

pub fn simple(b: Code, c: Code) -> Code
    ensures { result ≡ simple b c }
{
    next_or(b, shorter(c))
}

pub fn pair_behind(b: Code, c: Code) -> Code
    ensures { result ≡ pair_behind b c }
{
    pair_in(resolved(b, c))
}

// ---- runs

// The place of the j-th code that a run saves.
fn place_of(run: Run, j: usize) -> usize
    requires { (j < run.count) × (run.at + run.count < 2 ^ 64) }
    ensures { (result ≡ place_of run j) × (result < run.at + run.count) }
{
    match run.part {
        Part::Prologue => run.at + j,
        Part::Epilogue => run.at + (run.count - (j + 1)),
    }
}

// A code of a run: what stands before it, how it is given and how it is written.
#[derive(Clone, Copy)]
pub struct Step {
    pub before: Code,
    pub given: Code,
    pub written: Code,
}

impl Step {
    ghost use Rattle.arm64_simple.specs.Steps.{step_fits};

    // As it is written, a SaveNext as the pair that it saves.
    pub fn resolved(self) -> Code
        ensures { result ≡ resolved self.before self.written }
    {
        resolved(self.before, self.written)
    }

    // Question 83.
    fn fits(self) -> bool
        ensures { result ≡ step_fits self }
    {
        arm64_spelled::register_ok(shorter(self.given)) && arm64_spelled::code_fits(self.written)
    }
}

// The codes of a run from the next on, in the order in which they save.
#[derive(Drop)]
pub struct Steps<'a> {
    codes: Codes<'a>,
    next: usize,
    before: Code,
    ghost within: { next ≤ codes.run.count },
}

impl<'a> Codes<'a> {
    ghost use Rattle.arm64_simple.specs.Steps.{steps, steps_left};
    ghost use Rattle.arm64_simple.specs.Written.{saved_in, written_in};

    // The j-th code that the run saves.
    pub fn saved_at(&self, j: usize) -> Code
        requires { j < self.now.run.count }
        ensures { result ≡ saved_at self.now.list.now self.now.run j }
    {
        let i = place_of(self.run, j);
        Code::new(
            self.list[fields::CODE_STRIDE * i],
            self.list[fields::CODE_STRIDE * i + fields::REGISTER],
            self.list[fields::CODE_STRIDE * i + fields::OFFSET],
        )
    }

    pub fn steps(&self) -> Steps<'a>
        ensures { steps_left result ≡ steps no_pair (saved_in self.now) }
    {
        Steps {
            codes: *self,
            next: 0,
            before: NO_PAIR,
        }
    }

    // Question 83.
    pub fn fit(&self) -> bool
        ensures { result ≡ run_fits no_pair (saved_in self.now) }
    {
        self.steps().all(|s| s.fits())
    }

    // How many bytes the codes have, without the run's end.
    pub fn size(&self) -> usize
        ensures { (result ≡ length (backwards (written_in self.now))) × (result ≤ 4 * self.now.run.count) }
    {
        let mut size = 0;
        for s in self.steps() {
            size += arm64_spelled::code_size(s.written);
        }
        size
    }
}

impl Iterator for Steps<'_> {
    ghost use Rattle.std.specs.Iterator.{YieldsFirst, item_count};
    ghost use Rattle.arm64_simple.specs.Steps.{steps_left};

    type Item = Step;

    ghost next_gives = { YieldsFirst steps_left };

    ghost remaining = { item_count steps_left };

    // In each loop itself: a call would store a Step and read it back for each code.
    #[inline(always)]
    fn next(&mut self) -> Option<Step> {
        if self.next == self.codes.run.count {
            return None;
        }
        let before = self.before;
        let given = self.codes.saved_at(self.next);
        let written = simple(before, given);
        self.before = pair_behind(before, written);
        self.next += 1;
        Some(Step {
            before,
            given,
            written,
        })
    }
}
