// The bytes of a run of unwind codes of Windows on ARM64, and whether an epilogue's run is the end of the prologue's or equal to another. Ported from
// rucc-asm/src/xdata.rs (describe, in_prologue) of tamnd/rucc, changed: see NOTICE.
#![tactic(auto)]

ghost use Rattle.std.specs.Prelude.{◌≡◌, true, ◌+◌, ◌*◌, ◌≤◌, ◌<◌, length};
ghost use Rattle.format.proofs.Wrote.{Wrote};
ghost use Rattle.arm64.specs.Runs.{run_fits, backwards, run_bytes, no_pair, leads, same_codes};
ghost use Rattle.arm64_simple.specs.Written.{saved_in, written_in};

use arm64_simple::Codes;

// A run's bytes: its codes, which have `size` of them, the last saved first, and its end.
pub fn put_run(out: &mut [u8], at: usize, size: usize, run: &Codes) -> usize
    requires { (run_fits no_pair (saved_in run.now) ≡ true) × (size ≡ length (backwards (written_in run.now))) × (at + size + 1 ≤ length out.old) }
    ensures { Wrote out.old out.new at result (run_bytes (written_in run.now)) }
{
    let mut to = at + size;
    for s in run.steps() {
        to -= arm64_spelled::code_size(s.written);
        let _past = arm64_spelled::put_code(out, to, s.written);
    }
    leb::byte(out, at + size, 0xe4)
}

// Whether a run is the first part of another, which is as long or longer. The pair before is the same in both
// while their codes are, so that of one run serves.
fn leads_long(run: &Codes, other: &Codes) -> bool
    requires { run.now.run.count ≤ other.now.run.count }
    ensures { result ≡ leads (written_in run.now) (written_in other.now) }
{
    let mut j = 0;
    for s in run.steps() {
        if s.written != arm64_simple::simple(s.before, other.saved_at(j)) {
            return false;
        }
        j += 1;
    }
    true
}

pub fn leads(run: &Codes, other: &Codes) -> bool
    ensures { result ≡ leads (written_in run.now) (written_in other.now) }
{
    run.run.count <= other.run.count && leads_long(run, other)
}

// Kept: the counts and then the codes by `Code`'s derived equality. `Codes` derives none: two runs of one list are the same at different places. The codes
// are compared by `leads_long`, which `leads` has too; `eq` of the iterators, over each step's code, would need a closure and laws of its own beside it.
pub fn same_run(run: &Codes, other: &Codes) -> bool
    ensures { result ≡ same_codes (written_in run.now) (written_in other.now) }
{
    run.run.count == other.run.count && leads_long(run, other)
}
