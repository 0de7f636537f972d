// Numbers as bytes in a lent buffer. Ported from rucc-asm/src/unwind.rs (uleb, sleb) of tamnd/rucc, changed: see NOTICE.
#![tactic(auto)]

ghost use Rattle.std.specs.Prelude.{◌≡◌, [], ◌∷◌, ◌+◌, ◌*◌, ◌/◌, ◌%◌, ◌^◌, ◌≤◌, ◌<◌, length, replicate};
ghost use Rattle.std.specs.Int.Signed.{mag};
ghost use Rattle.format.proofs.Wrote.{Wrote};
ghost use Rattle.format.specs.Leb.{little, uleb, bits7, sleb};
ghost use Rattle.leb.specs.Groups.{groups};

// A byte at `at`. This and every other writer gives the place past what it stored.
// Kept: the list and the place stand apart in every writer. In a struct of both the list would be lent through it, and each contract would
// say besides that it is the same list still (D122).
// Kept: `relocs::number` is its twin at u64. `Wrote` speaks of a list of numbers, which a `[T]` is not, so a generic function could promise no
// more than `result ≡ at + 1` and `out.new ≡ set out.old at v`; `byte` and `number` would stay, each with a call of it for these two lines.
pub fn byte(out: &mut [u8], at: usize, b: u8) -> usize
    requires { at + 1 ≤ length out.old }
    ensures { Wrote out.old out.new at result (b ∷ []) }
{
    out[at] = b;
    at + 1
}

// Seven bits of a number, turned where it is negative.
fn group(neg: bool, d: u8) -> u8
    requires { d < 128 }
    ensures { (result ≡ bits7 neg d) × (result < 128) }
{
    if neg { 127 - d } else { d }
}

// The groups of m, each turned where neg is true, in a byte each: the last is the first that is below END.
// Kept: `i` by hand. How many bytes there are shows as x is divided, so no range is there for a `for`: over `out[at..].iter_mut()` the loop would
// break at the last group and the place behind it be counted still.
fn groups<const END: u64>(out: &mut [u8], at: usize, neg: bool, m: u64) -> usize
    requires { (64 ≤ END) × (END ≤ 128) × (at + length (groups END neg m) ≤ length out.old) }
    ensures { Wrote out.old out.new at result (groups END neg m) }
{
    let mut i = at;
    let mut x = m;
    while END <= x {
        out[i] = group(neg, (x % 128) as u8) + 128;
        x = x / 128;
        i += 1;
    }
    out[i] = group(neg, x as u8);
    i + 1
}

// v as an unsigned LEB number.
pub fn uleb(out: &mut [u8], at: usize, v: u64) -> usize
    requires { at + length (uleb v) ≤ length out.old }
    ensures { Wrote out.old out.new at result (uleb v) }
{
    groups::<128>(out, at, false, v)
}

// v, or -(v + 1) where v is negative.
fn magnitude(v: i64) -> u64
    ensures { (result ≡ mag v) × (result < 2 ^ 63) }
{
    if v < 0 { (-1 - v) as u64 } else { v as u64 }
}

// v as a signed LEB number: bit 6 of the last byte is the sign.
pub fn sleb(out: &mut [u8], at: usize, v: i64) -> usize
    requires { at + length (sleb v) ≤ length out.old }
    ensures { Wrote out.old out.new at result (sleb v) }
{
    groups::<64>(out, at, v < 0, magnitude(v))
}

// v as a field of n bytes, the lowest first.
// Kept: by division. A copy of the first `n.min(8)` bytes of `v.to_le_bytes()` with zeros behind them is slower: of 1, 2 and 4 bytes, which the writers
// store, 10 million calls took 0.35, 0.36 and 0.32 s, against 0.06, 0.07 and 0.08 s so (measured as Rust with rustc -O).
pub fn le(out: &mut [u8], at: usize, n: usize, v: u64) -> usize
    requires { at + n ≤ length out.old }
    ensures { Wrote out.old out.new at result (little n v) }
{
    let mut x = v;
    for i in at..at + n {
        out[i] = (x % 256) as u8;
        x = x / 256;
    }
    at + n
}

// Zeros, N in a turn, while N or more of n are left. It answers its turns.
fn fill_by<const N: usize>(out: &mut [u8], at: usize, n: usize) -> usize
    requires { (0 < N) × (at + n ≤ length out.old) }
    ensures { (result ≡ n / N) × Wrote out.old out.new at (at + N * result) (replicate (N * result) 0) }
{
    let turns = n / N;
    for turn in 0..turns {
        let i = at + N * turn;
        out[i..i + N].fill(0);
    }
    turns
}

// The core of `fill`: four zeros in a turn, then the remainder singly. It answers its turns.
// Kept: the specification asks for these turns and for their count (W-205), so one `fill` of all n zeros is not enough.
fn fill_turns(out: &mut [u8], at: usize, n: usize) -> usize
    requires { at + n ≤ length out.old }
    ensures { (result ≡ n / 4 + n % 4) × Wrote out.old out.new at (at + n) (replicate n 0) }
{
    let fours = fill_by::<4>(out, at, n);
    let ones = fill_by::<1>(out, at + 4 * fours, n - 4 * fours);
    fours + ones
}

// n zeros: padding, and blanks that a linker or a later store fills in.
pub fn fill(out: &mut [u8], at: usize, n: usize) -> usize
    requires { at + n ≤ length out.old }
    ensures { Wrote out.old out.new at result (replicate n 0) }
{
    fill_turns(out, at, n);
    at + n
}

// How many bytes uleb writes: mostly one.
pub fn uleb_size(v: u64) -> usize
    ensures { result ≡ length (uleb v) }
{
    if v < 128 {
        1
    } else {
        (70 - u64::leading_zeros(v) as usize) / 7
    }
}

// How many bytes sleb writes: the magnitude's bits and a bit of sign, and so one byte for zero.
pub fn sleb_size(v: i64) -> usize
    ensures { result ≡ length (sleb v) }
{
    (71 - u64::leading_zeros(magnitude(v)) as usize) / 7
}

// A byte as a number of 64 bits.
// Kept: public, and promises the bound besides, which `u64::from` does not and which `code_at` of x64_reader takes from here. Where a byte's type
// gives the bound, `u64::from` is enough.
pub fn wide(x: u8) -> u64
    ensures { (result ≡ x) × (result < 256) }
{
    u64::from(x)
}
