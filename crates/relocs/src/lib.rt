// Relocations in a lent list of numbers. Ported from rucc-asm/src/unwind.rs (Reloc) of tamnd/rucc, changed: see NOTICE.
#![tactic(auto)]

ghost use Rattle.std.specs.Prelude.{[], ◌∷◌, ◌+◌, ◌≤◌, length};
ghost use Rattle.format.proofs.Wrote.{Wrote};
ghost use Rattle.format.specs.Lists.{numbers_of};
ghost use Rattle.format.specs.Headers.{reloc};

// A relocation in a list: how many numbers it has, and where the others stand behind its place.
pub const RELOCATION_STRIDE: usize = 5;

pub const RELOCATION_SYMBOL: usize = 1;

pub const RELOCATION_KIND: usize = 2;

pub const RELOCATION_BYTES: usize = 3;

pub const RELOCATION_ADDEND: usize = 4;

// The kinds of relocation (document 01, "Record"). The kind of a Sub is one more than that of its Set.
// Kept: kinds by number: `relocation` is public and stores any; of a pair of Set and Sub the second is the first's plus 1 (records). Only apply tells
// them apart, by its Kind.
pub const DATA: u64 = 0;

pub const ADDRESS: u64 = 1;

pub const SUM_PLUS: u64 = 2;

pub const SUM_MINUS: u64 = 3;

pub const IMAGE: u64 = 4;

pub const SET6: u64 = 5;

pub const SET8: u64 = 7;

pub const SET16: u64 = 9;

pub const SET32: u64 = 11;

// The symbols that are not the caller's: the personality reference, the call sites and .debug_frame; a marker is this far above its function.
pub const PERSONALITY: u64 = 0;

pub const EXCEPT_TABLE: u64 = 1;

pub const DEBUG_FRAME: u64 = 2;

pub const MARKER: u64 = 4294967296;

// A number at `at`. This and every other writer gives the place past what it stored.
// Kept: `leb::byte` is its twin at u8, and says why.
pub fn number(out: &mut [u64], at: usize, v: u64) -> usize
    requires { at + 1 ≤ length out.old }
    ensures { Wrote out.old out.new at result (v ∷ []) }
{
    out[at] = v;
    at + 1
}

// A relocation: five numbers.
// Kept: one by one, and no struct. No function keeps or passes on a relocation: each of the calls, in headers, records, x64 and arm64_table, would
// build one for this call alone, in seven lines for one.
pub fn relocation(
    out: &mut [u64],
    at: usize,
    place: u64,
    symbol: u64,
    kind: u64,
    bytes: u64,
    addend: u64,
) -> usize
    requires { at + 5 ≤ length out.old }
    ensures { Wrote out.old out.new at result (numbers_of (reloc place symbol kind bytes addend ∷ [])) }
{
    let a = number(out, at, place);
    let b = number(out, a, symbol);
    let c = number(out, b, kind);
    let d = number(out, c, bytes);
    number(out, d, addend)
}
