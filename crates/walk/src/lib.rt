// The walk over the frames of a recorded fault (request W-202), which rucc-asm/src/unwind.rs of tamnd/rucc does not have: the record file, the
// function that holds an address, and what leaving a frame does to one register. The rules come from a reader, in `walked`.
#![tactic(auto)]

ghost use Rattle.std.specs.Prelude.{◌≡◌, ◌+◌, ◌*◌, ◌≤◌, ◌<◌, length, take, drop, get_or, set};
ghost use Rattle.std.proofs.Math.Option.{none, some};
ghost use Rattle.format.specs.Prelude.{after};
ghost use Rattle.format.specs.Coded.{result_of, numbered};
ghost use Rattle.format.proofs.Asked.{option_of};
ghost use Rattle.format.specs.Put.{put};
ghost use Rattle.format.specs.Leb.{read_little};
ghost use Rattle.format.specs.Reader.{value_or0};
ghost use Rattle.walk.specs.Recorded.{matches, read_trailer, slots_of, read_recorded};
ghost use Rattle.walk.specs.Walk.{sum_of, load, saved, left_by, frame_address, unsigned, looked_up, undefined, returned_to, holds, held_from, placed_of, frame_numbers};
ghost use Rattle.walk.specs.Standing.{holder_of, trailer_of, recorded_of, memory_of, slot_of, slots, left_of, step_of};

use format::{CfaRule, Question, Rule};
use operations::fields::{Position, read_le};

// ---- addresses

// The stack's bytes, the first of which is at the address.
#[derive(Clone, Copy)]
pub struct Memory<'a> {
    pub address: u64,
    pub bytes: &'a [u8],
}

impl Memory<'_> {
    // The 8 bytes at an address, where all of them are the stack's.
    pub fn load(&self, a: u64) -> Option<u64>
        ensures { result ≡ option_of (load (memory_of self.now) a) }
    {
        let place = Position::from(a.checked_sub(self.address)? as usize);
        let (v, _) = read_le(self.bytes, place, 8)?;
        Some(v)
    }

    // The word at an offset from the frame address.
    fn saved(&self, cfa: u64, o: i64) -> Option<u64>
        ensures { result ≡ option_of (after (sum_of cfa o) (load (memory_of self.now))) }
    {
        self.load(cfa.checked_add_signed(o)?)
    }
}

// A return address: with signing on, the low 48 bits.
pub fn unsigned(signing: bool, a: u64) -> u64
    ensures { result ≡ unsigned signing a }
{
    if signing { a % 281474976710656 } else { a }
}

// Where a caller is looked up: one byte before its return address, but exactly there behind a signal frame.
pub fn looked_up(exact: bool, a: u64) -> Option<u64>
    ensures { result ≡ option_of (looked_up exact a) }
{
    if exact { Some(a) } else { a.checked_sub(1) }
}

// ---- the function that holds an address

// Its numbers in the list: where it starts, and its length.
pub const FUNCTION_STRIDE: usize = 2;

// Kept: beside `covers` of call_sites and `record_holds` of reads, which are the same test. They meet a definition each, over a struct, a struct and an Option
// of two numbers; one function, in a crate below all three, needs a definition of its own and three laws.
fn holds(start: u64, size: u64, a: u64) -> bool
    ensures { result ≡ holds a (record { start = start; size = size }) }
{
    start <= a && a - start < size
}

// A function by its position in the list, and the offset of an address in it.
#[derive(Clone, Copy)]
pub struct Holder {
    pub position: u64,
    pub offset: u64,
}

// The first function in list order.
fn holder_of(functions: &[u64], a: u64) -> Option<Holder>
    ensures { result ≡ holder_of (held_from a 0 (placed_of functions.now)) }
{
    let n = functions.len() / FUNCTION_STRIDE;
    let i = (0..n).find(|i| {
        holds(
            functions[FUNCTION_STRIDE * *i],
            functions[FUNCTION_STRIDE * *i + 1],
            a,
        )
    })?;
    Some(Holder {
        position: i as u64,
        offset: a - functions[FUNCTION_STRIDE * i],
    })
}

// The function that holds the address where a caller is looked up.
pub fn held(functions: &[u64], exact: bool, pc: u64) -> Option<Holder>
    ensures { result ≡ holder_of (after (looked_up exact pc) (λ a. held_from a 0 (placed_of functions.now))) }
{
    holder_of(functions, looked_up(exact, pc)?)
}

// ---- the record file

fn matches(file: u64, distance: u64, count: u64, size: u64) -> bool
    requires { 16 ≤ file }
    ensures { result ≡ matches file distance count size }
{
    if 128 < count {
        return false;
    }
    if distance != 8 * count {
        return false;
    }
    if file - 16 < distance {
        return false;
    }
    size == file - 16 - distance
}

// What the end of a record file says: the stack's length and the count of registers.
#[derive(Clone, Copy)]
pub struct Trailer {
    pub size: usize,
    pub count: usize,
}

// 73: the trailer, where it matches the file.
pub fn read_trailer(file: &[u8]) -> Option<Trailer>
    ensures { result ≡ trailer_of (read_trailer file.now) }
{
    let n = file.len();
    if n < 16 {
        return None;
    }
    if 65536 < n {
        return None;
    }
    let trailer = Position::from(n - 16);
    let (distance, counted) = read_le(file, trailer, 8)?;
    let (count, sized) = read_le(file, counted, 4)?;
    let (size, _) = read_le(file, sized, 4)?;
    if !matches(n as u64, distance, count, size) {
        return None;
    }
    Some(Trailer {
        size: size as usize,
        count: count as usize,
    })
}

fn word_at(s: &[u8], at: usize) -> u64
    ensures { result ≡ value_or0 (read_little 8 (drop at s.now)) }
{
    let place = Position::from(at);
    let Some((v, _)) = read_le(s, place, 8) else {
        return 0;
    };
    v
}

// The registers 0 to 127 from a place of the record file on.
pub fn registers(file: &[u8], at: usize, count: usize) -> [Option<u64>; 128]
    requires { at ≤ 65536 }
    ensures { slots result ≡ slots_of count (drop at file.now) }
{
    // Kept: a loop. By `array::from_fn` it was proved, and `rt ci` then could not write what the crate states for the crates above it.
    let mut registers = [None; 128];
    for i in 0..128 {
        registers[i] = (i < count).then_some(word_at(file, at + 8 * i));
    }
    registers
}

// A record file: the stack's bytes, and the registers behind them.
#[derive(Clone, Copy)]
pub struct Recorded<'a> {
    pub stack: &'a [u8],
    pub registers: [Option<u64>; 128],
}

pub fn read_recorded(file: &[u8]) -> Option<Recorded>
    ensures { recorded_of result ≡ read_recorded file.now }
{
    let trailer = read_trailer(file)?;
    Some(Recorded {
        stack: &file[..trailer.size],
        registers: registers(file, trailer.size, trailer.count),
    })
}

// ---- a frame left

// A register, where it is present.
pub fn slot(registers: &[Option<u64>], reg: usize) -> Option<u64>
    ensures { slot_of result ≡ get_or (slots registers.now) reg none }
{
    registers.get(reg).copied().flatten()
}

// The frame address.
pub fn frame_address(rule: CfaRule, registers: &[Option<u64>]) -> Result<u64, Question>
    ensures { numbered result ≡ result_of (frame_address rule (slots registers.now)) }
{
    let CfaRule::Register(reg, o) = rule else {
        return Err(Question::Reached);
    };
    let a = slot(registers, usize::from(reg)).ok_or(Question::Reached)?;
    a.checked_add_signed(o).ok_or(Question::Stack)
}

pub fn undefined(rule: Rule) -> bool
    ensures { result ≡ undefined rule }
{
    matches!(rule, Rule::Undefined)
}

impl Memory<'_> {
    // A register after a frame is left, by its rule and the registers before.
    pub fn left_by(
        &self,
        registers: &[Option<u64>],
        rule: Rule,
        reg: usize,
        cfa: u64,
    ) -> Result<Option<u64>, Question>
        ensures { left_of result ≡ left_by (memory_of self.now) cfa (slots registers.now) reg rule }
    {
        match rule {
            Rule::Unstated | Rule::SameValue => Ok(slot(registers, reg)),
            Rule::Undefined => Ok(None),
            Rule::InRegister(other) => Ok(slot(registers, usize::from(other))),
            Rule::Saved(o) => {
                let v = self.saved(cfa, o).ok_or(Question::Stack)?;
                Ok(Some(v))
            }
        }
    }
}

// The stack pointer's register set, where it is one of those that are followed.
pub fn with_stack(mut registers: [Option<u64>; 128], reg: u64, cfa: u64) -> [Option<u64>; 128]
    ensures { slots result ≡ set (slots registers) reg (some cfa) }
{
    if reg < 128 {
        registers[reg as usize] = Some(cfa);
    }
    registers
}

// ---- a caller

// Its registers, its return address and whether it is looked up exactly there.
#[derive(Clone, Copy)]
pub struct Caller {
    pub registers: [Option<u64>; 128],
    pub pc: u64,
    pub exact: bool,
}

// The return address is what its register holds.
pub fn returned(
    registers: [Option<u64>; 128],
    ret: u64,
    signing: bool,
    exact: bool,
) -> Result<Option<Caller>, Question>
    ensures { step_of result ≡ returned_to (slots registers) ret signing exact }
{
    let a = slot(&registers, ret as usize).ok_or(Question::Reached)?;
    Ok(Some(Caller {
        registers,
        pc: unsigned(signing, a),
        exact,
    }))
}

// ---- the frames

// Its numbers in a list.
pub const FRAME_STRIDE: usize = 2;

// The position of its function in the list, and the pc or return address.
#[derive(Clone, Copy, Default)]
pub struct Frame {
    pub position: u64,
    pub pc: u64,
}

// The frames stored, two numbers each.
// Kept: a loop over their numbers. `enumerate` would hand out the frame, and the two places in `out` would still be counted from its number.
pub fn store(frames: &[Frame], out: &mut [u64])
    requires { 2 * length frames.now ≤ length out.old }
    ensures { out.new ≡ put out.old 0 (frame_numbers frames.now) }
{
    for i in 0..frames.len() {
        out[FRAME_STRIDE * i] = frames[i].position;
        out[FRAME_STRIDE * i + 1] = frames[i].pc;
    }
}
