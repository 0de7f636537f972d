// Ported from crates/rucc-asm/src/unwind.rs of tamnd/rucc (CfiOp, Seh, CallRegs) and changed; see NOTICE.
// The types of the library: the machine, rows, x64 codes, and every answer. What they mean is in specs/.
#![tactic(auto)]

ghost use Rattle.std.specs.Prelude.{◌≡◌};
ghost use Rattle.format.specs.Machine.{x8664, machine_with};

pub use question::Question;

pub mod question;

// A machine as the tables see it: the pointer width in bytes, the bytes that a call pushes, DWARF's numbers of the stack
// pointer, the return address and the frame pointer (65,536: none), and what register of the machine a DWARF number is.
// Kept: 65,536 and 255 for none, as document 01 and the list of a machine have them; prologue compares a register of a row with `frame` without a case.
#[derive(Clone, Copy)]
pub struct Machine {
    pub word: u64,
    pub pushed: u64,
    pub stack: u64,
    pub ret: u64,
    pub frame: u64,
    // 0 to 127: an integer register; 128 to 254: vector register n - 128; 255: none.
    pub map: [u8; 64],
}

impl Machine {
    // The map: DWARF 0 to 15 are rax rdx rcx rbx rsi rdi rbp rsp and r8 to r15 (System V psABI, figure 3.36), 17 to 32 the vectors.
    pub const X86_64: Machine = Machine {
        word: 8,
        pushed: 8,
        stack: 7,
        ret: 16,
        frame: 6,
        map: [
            0, 2, 1, 3, 6, 7, 5, 4, 8, 9, 10, 11, 12, 13, 14, 15, 255, 128, 129, 130, 131, 132,
            133, 134, 135, 136, 137, 138, 139, 140, 141, 142, 143, 255, 255, 255, 255, 255, 255,
            255, 255, 255, 255, 255, 255, 255, 255, 255, 255, 255, 255, 255, 255, 255, 255, 255,
            255, 255, 255, 255, 255, 255, 255, 255,
        ],
    };

    // A machine of the given numbers. Whether it is one is question 11, asked where it is used.
    // Kept: beside the struct's public fields, and `x86_64` beside `X86_64`: a constructor and a ready machine are asked for (document 01), and a
    // constant has no contract.
    pub fn new(word: u64, pushed: u64, stack: u64, ret: u64, frame: u64, map: [u8; 64]) -> Machine
        ensures { result ≡ machine_with word pushed stack ret frame map }
    {
        Machine {
            word,
            pushed,
            stack,
            ret,
            frame,
            map,
        }
    }

    // The x86-64 of the System V psABI.
    pub fn x86_64() -> Machine
        ensures { result ≡ x8664 }
    {
        Machine::X86_64
    }
}

// What a row says (DWARF 5, 6.4.2). Registers have 16 bits. An offset has 32 bits, signed, in a function's rows, and 64 in
// what the reader finds.
#[derive(Clone, Copy, PartialEq, Eq)]
pub enum Row {
    DefCfa(u16, i64),
    DefCfaOffset(i64),
    DefCfaRegister(u16),
    Offset(u16, i64),
    Restore(u16),
    Undefined(u16),
    RememberState,
    RestoreState,
    NegateRaState,
    SameValue(u16),
    // The second register holds the first one's value.
    InRegister(u16, u16),
}

// A code of an x64 prologue. A direct code may name any register; one above 15 is question 34.
#[derive(Clone, Copy)]
pub enum Seh {
    Push(u64),
    Alloc(i64),
    Frame(u64, i64),
    Save(u64, bool, i64),
}

// The rule of the canonical frame address (CFA): none, or a register plus an offset.
// Kept: an enum, and no Option of a pair: that makes one of the three functions which take it apart shorter (reader's `register_rule`, an `ok_or`),
// leaves those of unwind and walk as they are, and writes None for `Unset` in ten lines of the definitions, and a Some of a pair for `Register` in ten more.
#[derive(Clone, Copy, Default)]
pub enum CfaRule {
    #[default]
    Unset,
    Register(u16, i64),
}

// A register's rule: where the caller's value is.
#[derive(Clone, Copy, Default)]
pub enum Rule {
    #[default]
    Unstated,
    Undefined,
    Saved(i64),
    SameValue,
    InRegister(u16),
}

// What holds at a place, for one register: the CFA rule, the register's rule and the signing state. In front of a header's operations it is
// the default.
#[derive(Clone, Copy, Default)]
pub struct Rules {
    pub cfa: CfaRule,
    pub rule: Rule,
    pub signing: bool,
}

// The DWARF sections: ELF's eh_frame and ELF's debug_frame.
#[derive(Clone, Copy)]
pub enum Section {
    Elf,
    Debug,
}

// An operation of an unwind table: padding, a step, or a row.
#[derive(Clone, Copy)]
pub enum Operation {
    Nop,
    Step(u64),
    Does(Row),
}

// A question answered by no, and the function's position. A writer answers `Result<Option<Counts>, Refusal>`: what it
// wrote, by the counts of its results, or nothing, in a format that has no table.
#[derive(Clone, Copy, PartialEq, Eq)]
pub struct Refusal {
    pub question: Question,
    pub position: u64,
}

// A question that is asked of no function: its position is 0.
impl From<Question> for Refusal {
    ghost from_gives = { λ q r. r ≡ record { question = q; position = 0 } };

    fn from(question: Question) -> Refusal {
        Refusal {
            question,
            position: 0,
        }
    }
}

// Elements of header places (or markers), bytes, relocations (of five numbers), bytes of call sites (or x64 info).
#[derive(Clone, Copy, PartialEq, Eq)]
pub struct Counts {
    pub places: u64,
    pub bytes: u64,
    pub relocations: u64,
    pub sites: u64,
}
