// x64 unwind data read: an UNWIND_INFO's header and its codes (Microsoft, "x64 exception handling"), which rucc-asm/src/unwind.rs of tamnd/rucc does not have.
#![tactic(auto)]

ghost use Rattle.std.specs.Prelude.{◌≡◌, ◌+◌, ◌*◌, ◌^◌, ◌≤◌, ◌<◌, [], ◌∷◌, ◌||◌, length};
ghost use Rattle.format.proofs.Asked.{option_of};
ghost use Rattle.format.specs.Lists.{code_stride};
ghost use Rattle.format.specs.Numbers.{number_of};
ghost use Rattle.format.specs.Put.{put};
ghost use Rattle.format.specs.Answers.{bit};
ghost use Rattle.format.specs.X64Reader.{operand_bytes, large_size, meaning, fields_of, is_frame, frame_register, frame_offset, read_codes, read_x64, info_numbers, codes_stored};
ghost use Rattle.operations.specs.Positions.{from};
ghost use Rattle.x64_reader.specs.Reads.{CodeSays, counted_of, Held, stored_of, HeaderSays, read_numbers};

use format::{Question, Seh};
use numbers::{codes, uwop};
use operations::fields::{Position, read_le};

// ---- one code

// Kept: an operation is its number here, and no enum. `code_at` has it out of four bits of a record, and two functions ask which one it is: an enum
// would add a third match of nine arms, which makes it, with a definition of each one's number for the contracts of the other two.

fn large_bytes(info: u64) -> Option<usize>
    ensures { result ≡ option_of (operand_bytes 1 info) }
{
    match info {
        0 => Some(2),
        1 => Some(4),
        _ => None,
    }
}

// How many bytes of operand an operation has, where it is one that `seh` writes.
fn operand_bytes(op: u64, info: u64) -> Option<usize>
    ensures { result ≡ option_of (operand_bytes op info) }
{
    match op {
        uwop::UWOP_PUSH_NONVOL => Some(0),
        uwop::UWOP_ALLOC_LARGE => large_bytes(info),
        uwop::UWOP_ALLOC_SMALL => Some(0),
        uwop::UWOP_SET_FPREG => Some(0),
        uwop::UWOP_SAVE_NONVOL => Some(2),
        uwop::UWOP_SAVE_NONVOL_FAR => Some(4),
        uwop::UWOP_SAVE_XMM128 => Some(2),
        uwop::UWOP_SAVE_XMM128_FAR => Some(4),
        _ => None,
    }
}

fn large_size(info: u64, v: u64) -> u64
    requires { v < 2 ^ 32 }
    ensures { (result ≡ large_size info v) × (result < 2 ^ 36) }
{
    if info == 0 { 8 * v } else { v }
}

// What an operation says, by the header's frame byte, its info and its operand.
fn meaning(frame: u8, op: u64, info: u64, v: u64) -> Seh
    requires { (info < 16) × (v < 2 ^ 32) }
    ensures { result ≡ meaning frame op info v }
{
    match op {
        uwop::UWOP_PUSH_NONVOL => Seh::Push(info),
        uwop::UWOP_ALLOC_LARGE => Seh::Alloc(large_size(info, v) as i64),
        uwop::UWOP_ALLOC_SMALL => Seh::Alloc((8 * info + 8) as i64),
        uwop::UWOP_SET_FPREG => Seh::Frame(u64::from(frame % 16), i64::from(16 * (frame / 16))),
        uwop::UWOP_SAVE_NONVOL => Seh::Save(info, false, (8 * v) as i64),
        uwop::UWOP_SAVE_NONVOL_FAR => Seh::Save(info, false, v as i64),
        uwop::UWOP_SAVE_XMM128 => Seh::Save(info, true, (16 * v) as i64),
        _ => Seh::Save(info, true, v as i64),
    }
}

// A code: its offset in the prologue, what it says, and the position past it.
#[derive(Clone, Copy)]
pub struct Code {
    pub offset: u64,
    pub says: Seh,
    pub past: Position,
}

// The code at a position of a record's slots. It is inlined with the iterator's `next`.
#[inline(always)]
fn code_at(s: &[u8], at: Position, frame: u8) -> Option<Code>
    ensures { CodeSays frame s.now at result }
{
    let from = at.at;
    if s.len() < 2 || s.len() - 2 < from {
        return None;
    }
    let b = leb::wide(s[from + 1]);
    let op = b % 16;
    let info = b / 16;
    let n = operand_bytes(op, info)?;
    let behind = Position {
        at: from + 2,
        shortest: at.shortest,
    };
    let (v, past) = read_le(s, behind, n)?;
    Some(Code {
        offset: u64::from(s[from]),
        says: meaning(frame, op, info, v),
        past,
    })
}

// ---- the codes of a record: first counted, then stored

// A record's slots from a position on, code by code. One that cannot be read is None, and the last.
#[derive(Drop)]
pub struct Slots<'a> {
    pub bytes: &'a [u8],
    pub frame: u8,
    pub at: Position,
}

impl Iterator for Slots<'_> {
    ghost use Rattle.std.specs.Prelude.{◌-◌, length};
    ghost use Rattle.std.specs.Iterator.{at_most};
    ghost use Rattle.x64_reader.specs.Reads.{GivesCode};

    type Item = Option<Code>;

    ghost next_gives = { GivesCode };

    ghost remaining = { λ s. at_most (length s.bytes.now - s.at.at) };

    // Always inlined: as a call it stores its place and each code that it yields, to be read back at once.
    #[inline(always)]
    fn next(&mut self) -> Option<Option<Code>> {
        if self.bytes.len() <= self.at.at {
            return None;
        }
        let Some(code) = code_at(self.bytes, self.at, self.frame) else {
            self.at.at = self.bytes.len();
            return Some(None);
        };
        self.at = code.past;
        Some(Some(code))
    }
}

pub fn slots_in(bytes: &[u8], frame: u8) -> Slots
    ensures { (result.bytes.now ≡ bytes.now) × (result.frame ≡ frame) × (result.at ≡ from 0) }
{
    Slots {
        bytes,
        frame,
        at: Position::START,
    }
}

// Whether this code or one before it sets the frame register.
fn or_frame(framed: bool, code: Seh) -> bool
    ensures { result ≡ (is_frame code || framed) }
{
    framed || matches!(code, Seh::Frame(_, _))
}

// Kept: n beside framed: one pass gives both and stops at a code that cannot be read; `count` and `any` would be two passes.
// How many codes there are, and whether one sets the frame register, where each can be read.
pub fn count(s: &[u8], frame: u8) -> Option<(usize, bool)>
    ensures { result ≡ counted_of (read_codes frame s.now) }
{
    let mut n = 0usize;
    let mut framed = false;
    for code in slots_in(s, frame) {
        framed = or_frame(framed, code?.says);
        n += 1;
    }
    Some((n, framed))
}

impl Code {
    // Its numbers, as `seh` takes them.
    fn numbers(self) -> [u64; codes::STRIDE]
        ensures { result ≡ self.offset ∷ fields_of self.says }
    {
        let offset = self.offset;
        match self.says {
            Seh::Push(reg) => [offset, codes::PUSH, reg, 0, 0],
            Seh::Alloc(z) => [offset, codes::ALLOC, 0, 0, z.cast_unsigned()],
            Seh::Frame(reg, z) => [offset, codes::FRAME, reg, 0, z.cast_unsigned()],
            Seh::Save(reg, vector, z) => [
                offset,
                codes::SAVE,
                reg,
                u64::from(vector),
                z.cast_unsigned(),
            ],
        }
    }

    fn put(self, codes: &mut [u64], at: usize)
        requires { at + code_stride ≤ length codes.old }
        ensures { codes.new ≡ put codes.old at (self.offset ∷ fields_of self.says) }
    {
        let n = self.numbers();
        codes[at..at + codes::STRIDE].copy_from_slice(&n);
    }
}

// Kept: `left` by hand. The codes go in from the last to the first; by `chunks_exact_mut(..).rev()` with `zip` the clause would say what the reversed
// parts leave in the list.
// The n codes, five numbers each, from the last to the first, since they stand in reverse.
fn store(s: &[u8], frame: u8, n: usize, codes: &mut [u64])
    requires { (code_stride * n ≤ length codes.old) × Held (read_codes frame s.now) n }
    ensures { codes.new ≡ stored_of (read_codes frame s.now) codes.old }
{
    let mut left = n;
    for code in slots_in(s, frame) {
        let Some(code) = code else {
            return;
        };
        left -= 1;
        code.put(codes, codes::STRIDE * left);
    }
}

// ---- a record

// The prologue's end and the frame byte of a header, and its slots.
#[derive(Clone, Copy)]
pub struct Header<'a> {
    pub end: u64,
    pub frame: u8,
    pub slots: &'a [u8],
}

pub fn header_at(info: &[u8], place: u64) -> Option<Header>
    ensures { HeaderSays info.now place result }
{
    let size = info.len();
    let p = place as usize;
    if size < 4 || size - 4 < p || info[p] != 1 {
        return None;
    }
    let slots = usize::from(info[p + 2]);
    if size - 4 - p < 2 * slots {
        return None;
    }
    Some(Header {
        end: u64::from(info[p + 1]),
        frame: info[p + 3],
        slots: &info[p + 4..p + 4 + 2 * slots],
    })
}

// What unwind_read_x64 answers.
// Kept: a number and fields that are 0 where it refuses, since C reads it.
#[repr(C)]
#[derive(Clone, Copy, Default)]
pub struct X64Reading {
    pub number: u64,
    pub end: u64,
    pub frame: u64,
    pub frame_register: u64,
    pub frame_offset: u64,
    pub codes: u64,
}

fn refused(question: Question) -> X64Reading
    ensures { read_numbers result ≡ number_of question ∷ 0 ∷ 0 ∷ 0 ∷ 0 ∷ 0 ∷ [] }
{
    X64Reading {
        number: question.number(),
        ..X64Reading::default()
    }
}

fn read_as(header: Header, framed: bool, n: usize) -> X64Reading
    ensures { read_numbers result ≡ 0 ∷ header.entry.end ∷ bit framed ∷ frame_register header.entry.frame ∷ frame_offset header.entry.frame ∷ n ∷ [] }
{
    X64Reading {
        number: 0,
        end: header.end,
        frame: u64::from(framed),
        frame_register: u64::from(header.frame % 16),
        frame_offset: u64::from(16 * (header.frame / 16)),
        codes: n as u64,
    }
}

// The x64 record at a place of the info bytes: where the prologue ends, whether a code sets the frame register, the header's frame register
// and offset, and the codes in prologue order, five numbers each as `seh` takes them, at the front of a lent list. It refuses by 76, 77 and
// 54, and then the list is unchanged; else what lies past the codes is as it was.
#[unsafe(no_mangle)]
pub extern "C" fn unwind_read_x64(info: &[u8], place: u64, codes: &mut [u64]) -> X64Reading
    ensures result_value { read_numbers result ≡ info_numbers (read_x64 info.now place (length codes.old)) }
    ensures codes_after { codes.new ≡ codes_stored (read_x64 info.now place (length codes.old)) codes.old }
{
    let Some(header) = header_at(info, place) else {
        return refused(Question::X64Header);
    };
    let Some((n, framed)) = count(header.slots, header.frame) else {
        return refused(Question::X64Codes);
    };
    if codes.len() / codes::STRIDE < n {
        return refused(Question::OtherRoom);
    }
    store(header.slots, header.frame, n, codes);
    read_as(header, framed, n)
}
