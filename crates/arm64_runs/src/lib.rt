// Runs of unwind codes of Windows on ARM64: how many codes a run has up to its end, and the run stored as numbers, forwards and backwards.
#![tactic(auto)]

ghost use Rattle.std.specs.Prelude.{◌≡◌, [], ◌∷◌, ◌+◌, ◌*◌, ◌≤◌, ◌<◌, length, IfSome};
ghost use Rattle.std.proofs.Math.Option.{some};
ghost use Rattle.format.proofs.Asked.{option_of};
ghost use Rattle.format.specs.Put.{put};
ghost use Rattle.format.proofs.Wrote.{Wrote};
ghost use Rattle.arm64.specs.Lists.{code_stride, code_numbers};
ghost use Rattle.arm64.specs.Meaning.{reverse};
ghost use Rattle.arm64.specs.Reader.{run_at};
ghost use Rattle.arm64_runs.specs.Runs.{count_of, codes_in};

use arm64::{Code, fields};

// How many codes the run from a place on has, up to its end code; nothing where there is no run.
// Kept: a `while let` by places, and not `Run` below: its None would tell the run's end and a place without a code alike.
#[tactic(auto, using(format::proofs::Asked::none_is, format::proofs::Asked::value_is, arm64_codes::proofs::Formed::ahead, crate::proofs::Stores::more_first, crate::proofs::Stores::more_none, crate::proofs::Stores::more_on, crate::proofs::Stores::more_out))]
pub fn count_run(s: &[u8], at: usize) -> Option<usize>
    ensures { (result ≡ option_of (count_of (run_at s.now at))) × IfSome result (λ n. n ≤ length s.now) }
{
    let mut p = at;
    let mut n = 0;
    while let Some((c, q)) = arm64_codes::code_at(s, p) {
        if c.kind == arm64::END {
            return Some(n);
        }
        n += 1;
        p = q;
    }
    None
}

// Three numbers: a code's or an epilogue's.
pub fn put_three(out: &mut [u64], at: usize, numbers: [u64; 3]) -> usize
    requires { at + 3 ≤ length out.old }
    ensures { Wrote out.old out.new at result numbers }
{
    out[at..at + 3].copy_from_slice(&numbers);
    at + 3
}

#[tactic(auto, unfolding(arm64::specs::Lists::code_numbers))]
pub fn put_code(out: &mut [u64], at: usize, c: Code) -> usize
    requires { at + code_stride ≤ length out.old }
    ensures { Wrote out.old out.new at result (code_numbers (c ∷ [])) }
{
    put_three(out, at, [c.kind, c.register, c.offset])
}

// The codes of a run that is there, from the next on.
#[derive(Drop)]
pub struct Run<'a> {
    bytes: &'a [u8],
    next: usize,
    ghost there: { run_at bytes.now next ≡ some (codes_in (run_at bytes.now next)) },
}

impl<'a> Run<'a> {
    ghost use Rattle.arm64_runs.specs.Left.{codes_left};

    // The run at a place.
    pub fn at(bytes: &'a [u8], next: usize) -> Run<'a>
        requires { run_at bytes.now next ≡ some (codes_in (run_at bytes.now next)) }
        ensures { codes_left result ≡ codes_in (run_at bytes.now next) }
    {
        Run { bytes, next }
    }

    // The codes, in their order.
    pub fn put(self, out: &mut [u64], at: usize) -> usize
        requires { at + code_stride * length (codes_left self) ≤ length out.old }
        ensures { Wrote out.old out.new at result (code_numbers (codes_left self.entry)) }
    {
        let mut i = at;
        for c in self {
            i = put_code(out, i, c);
        }
        i
    }

    // The codes, the last of them first, at the list's front, up to `end`.
    pub fn put_back(self, out: &mut [u64], end: usize)
        requires { (end ≡ code_stride * length (codes_left self)) × (end ≤ length out.old) }
        ensures { out.new ≡ put out.old 0 (code_numbers (reverse (codes_left self.entry))) }
    {
        let mut i = end;
        for c in self {
            i -= fields::CODE_STRIDE;
            put_code(out, i, c);
        }
    }
}

impl Iterator for Run<'_> {
    ghost use Rattle.std.specs.Iterator.{YieldsFirst, item_count};
    ghost use Rattle.arm64_runs.specs.Left.{codes_left};

    type Item = Code;

    ghost next_gives = { YieldsFirst codes_left };

    ghost remaining = { item_count codes_left };

    fn next(&mut self) -> Option<Code> {
        let (c, q) = arm64_codes::code_at(self.bytes, self.next)?;
        if c.kind == arm64::END {
            return None;
        }
        self.next = q;
        Some(c)
    }
}
