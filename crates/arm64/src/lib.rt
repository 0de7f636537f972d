// Ported from crates/rucc-asm/src/xdata.rs of tamnd/rucc (Code) and changed; see NOTICE.
// The types of Windows' unwind data on ARM64: codes, the fields of a record and of a packed word, and the reader's answer. What they mean is in specs/.
#![tactic(auto)]

ghost use Rattle.std.specs.Prelude.{◌≡◌};
ghost use Rattle.arm64.specs.Codes.{code};
ghost use Rattle.arm64.specs.Records.{count_in};

pub mod fields;
pub mod header_bits;
pub mod limits;
pub mod packed_bits;

// A code: its kind, 0 to 17 in the source's order, its register by number (x19 is 19, d8 is 8) and its offset or size in bytes. An operand that the
// kind does not have is 0.
// Kept: the kinds are numbers, and no enum. C's lists have numbers, and without a heap no list is decoded once: each of the six loops over a run (question
// 83, sizes, bytes, runs compared, counts, places) would turn each number into a variant, and public functions that take any code would refuse or panic.
#[derive(Clone, Copy, PartialEq, Eq)]
pub struct Code {
    pub kind: u64,
    pub register: u64,
    pub offset: u64,
}

impl Code {
    pub fn new(kind: u64, register: u64, offset: u64) -> Code
        ensures { result ≡ code kind register offset }
    {
        Code {
            kind,
            register,
            offset,
        }
    }
}

pub const ALLOC: u64 = 0;

pub const R19R20X: u64 = 1;

pub const FPLR: u64 = 2;

pub const FPLR_X: u64 = 3;

pub const REGP: u64 = 4;

pub const REGP_X: u64 = 5;

pub const REG: u64 = 6;

pub const REG_X: u64 = 7;

pub const LRPAIR: u64 = 8;

pub const FREGP: u64 = 9;

pub const FREGP_X: u64 = 10;

pub const FREG: u64 = 11;

pub const FREG_X: u64 = 12;

pub const SET_FP: u64 = 13;

pub const ADD_FP: u64 = 14;

pub const NOP: u64 = 15;

pub const SAVE_NEXT: u64 = 16;

pub const PAC_SIGN_LR: u64 = 17;
// The code that ends a run of codes: a form has this kind, a list of codes never.
pub const END: u64 = 18;
// A first byte that `describe` never writes.
// Kept: a form of this kind, and no None: `code_fits` and `code_size` of arm64_spelled take any code, and by the definition (`form_for`) one of no kind has
// one byte and no register. With Option<Form> arm64_codes' `code_at` would match in place of its test, and `Spelling` turn None back into this form.
pub const RESERVED: u64 = 19;

// How a code is spelled: `size` bytes, of which the first is `op` where every field is 0. Behind op stands one number, first byte highest: the
// register's field times `unit`, plus the offset's field. The register is `first` plus `step` for each of its field, the offset `scale` times its field and `more`.
#[derive(Clone, Copy)]
pub struct Form {
    pub kind: u64,
    pub op: u64,
    pub size: u64,
    pub unit: u64,
    pub first: u64,
    pub step: u64,
    pub scale: u64,
    pub more: u64,
}

// Where a function's instructions are that a list of codes stands for.
#[derive(Clone, Copy)]
pub enum Part {
    Prologue,
    Epilogue,
}

// What a header says of the epilogues: one at the function's end (E is set), by the index of its codes, or how many have a word each.
#[derive(Clone, Copy)]
pub enum Epilogues {
    Single(u64),
    Scoped(u64),
}

impl Epilogues {
    // The count's field.
    pub fn count(self) -> u64
        ensures { result ≡ count_in self }
    {
        match self {
            Epilogues::Single(index) => index,
            Epilogues::Scoped(count) => count,
        }
    }
}

// A full record's header: the length in instructions, the handler's mark X, the epilogues, the words of codes, and the place past the header, where
// the epilogues' words start.
// Kept: no invariant on the fields' widths, here and in Packed. The definitions read both out of any numbers: `short_header` of any w has w / 2^27 words, and
// `packed_of` a frame of w / 2^23. A width in the type would make `header_with`, `short_header`, `long_header`, `header_at`, `packed_of` and `tally` ask that a
// list holds bytes, and so `read_arm64` and the theorems on it. What was read has its widths in arm64_records' `Record` and arm64_packed's `Word`.
#[derive(Clone, Copy)]
pub struct Header {
    pub length: u64,
    pub handler: bool,
    pub epilogues: Epilogues,
    pub words: u64,
    pub past: u64,
}

// A packed word: the flag (1 a function, 2 a fragment), the length in instructions, RegF, RegI, H, CR and the frame's size in 16 bytes.
// Kept: H and CR as numbers: `packed_of` reads them as w / 2^20 % 2 and w / 2^21 % 4, `saved_size` has 64 times H, and the word is the sum of all fields.
#[derive(Clone, Copy)]
pub struct Packed {
    pub flag: u64,
    pub length: u64,
    pub vectors: u64,
    pub registers: u64,
    pub homes: u64,
    pub chain: u64,
    pub frame: u64,
}

// What the reader answers: 0 or the question's number, the length in bytes, and how many codes the prologue has, how many epilogues there are, and how
// many codes in all.
// Kept: a number beside the fields, and no Result: C reads the fields.
#[repr(C)]
#[derive(Clone, Copy, Default)]
pub struct Arm64Reading {
    pub number: u64,
    pub length: u64,
    pub prologue: u64,
    pub epilogues: u64,
    pub codes: u64,
}
