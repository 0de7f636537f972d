// The codes of an x64 record undone on a stopped thread (Microsoft, "Unwind procedure" and "Unwind operation code"), which
// rucc-asm/src/unwind.rs of tamnd/rucc does not have.

ghost use Rattle.std.specs.Prelude.{◌≡◌, ◌<◌, get_or};
ghost use Rattle.format.proofs.Asked.{option_of};
ghost use Rattle.format.specs.Coded.{result_of, numbered};
ghost use Rattle.format.specs.X64.{size64, register_in};
ghost use Rattle.format.specs.X64Reader.{frame_register, frame_offset};
ghost use Rattle.walk.specs.Standing.{memory_of};
ghost use Rattle.x64_back.specs.Thread.{registers, with_integer, with_halves, base_by, undo_save, undo_code, undo_slots, undo_at, EntryBack};

use format::{Question, Seh};
use walk::Memory;
use x64_reader::{count, header_at, slots_in};

// How many integer registers there are, and how many halves of as many vector registers.
pub const INTEGERS: usize = 16;

pub const VECTOR_HALVES: usize = 32;

// The stack pointer's number, and the bytes of a word.
const RSP: u64 = 4;

const WORD: u64 = 8;

// A thread's registers by their numbers in codes: the integer ones, and the vector ones as two halves each, the lower first.
#[derive(Clone, Copy)]
pub struct Registers {
    pub integers: [u64; INTEGERS],
    pub vectors: [u64; VECTOR_HALVES],
}

// A size or an offset, which no record has below 0.
fn size(z: i64) -> u64
    ensures { result ≡ size64 z }
{
    u64::try_from(z).unwrap_or(0)
}

impl Registers {
    fn with_integer(self, reg: u64, value: u64) -> Registers
        requires { reg < registers }
        ensures { result ≡ with_integer self reg value }
    {
        let mut integers = self.integers;
        integers[reg as usize] = value;
        Registers { integers, ..self }
    }

    fn with_halves(self, reg: u64, low: u64, high: u64) -> Registers
        requires { reg < registers }
        ensures { result ≡ with_halves self reg low high }
    {
        let mut vectors = self.vectors;
        vectors[2 * reg as usize] = low;
        vectors[2 * reg as usize + 1] = high;
        Registers { vectors, ..self }
    }

    // Where saves count from: the frame register less its offset, without a frame code the stack pointer.
    fn base(self, framed: bool, frame: u8) -> Option<u64>
        ensures { result ≡ option_of (base_by framed (frame_register frame) (frame_offset frame) self) }
    {
        if !framed {
            return Some(self.integers[RSP as usize]);
        }
        let register = usize::from(frame % 16);
        self.integers[register].checked_sub(u64::from(16 * (frame / 16)))
    }

    // The register that was saved at an address: a word, of a vector register two.
    fn undo_save(self, reg: u64, vector: bool, at: u64, memory: &Memory) -> Option<Registers>
        requires { reg < registers }
        ensures { result ≡ option_of (undo_save (memory_of memory.now) reg vector self at) }
    {
        let low = memory.load(at)?;
        if !vector {
            return Some(self.with_integer(reg, low));
        }
        let above = at.checked_add(WORD)?;
        let high = memory.load(above)?;
        Some(self.with_halves(reg, low, high))
    }

    // The registers before a code's instruction.
    fn undo(self, code: Seh, base: u64, memory: &Memory) -> Option<Registers>
        requires { register_in code < registers }
        ensures { result ≡ option_of (undo_code (memory_of memory.now) base code self) }
    {
        let sp = self.integers[RSP as usize];
        match code {
            Seh::Push(reg) => {
                let value = memory.load(sp)?;
                let above = sp.checked_add(WORD)?;
                Some(self.with_integer(reg, value).with_integer(RSP, above))
            }
            Seh::Alloc(z) => {
                let above = sp.checked_add(size(z))?;
                Some(self.with_integer(RSP, above))
            }
            Seh::Frame(reg, z) => {
                let before = self.integers[reg as usize].checked_sub(size(z))?;
                Some(self.with_integer(RSP, before))
            }
            Seh::Save(reg, vector, z) => {
                let at = base.checked_add(size(z))?;
                self.undo_save(reg, vector, at, memory)
            }
        }
    }

    // The registers before a record's codes, which stand in reverse.
    fn undo_all(self, slots: &[u8], frame: u8, framed: bool, memory: &Memory) -> Option<Registers>
        ensures { result ≡ option_of (undo_slots (memory_of memory.now) framed frame slots.now self) }
    {
        let base = self.base(framed, frame)?;
        let mut before = self;
        for code in slots_in(slots, frame) {
            before = before.undo(code?.says, base, memory)?;
        }
        Some(before)
    }
}

// A thread's registers before the prologue whose codes the record at a place of the info bytes has, of which all were run: each code undone, the
// last first. It refuses by the reader's 76 and 77, then by 74 where a word is not the stack's or a sum of addresses has more than 64 bits.
pub fn undo_record(
    info: &[u8],
    place: u64,
    memory: &Memory,
    registers: Registers,
) -> Result<Registers, Question>
    ensures answer_value { numbered result ≡ result_of (undo_at info.now place (memory_of memory.now) registers) }
    ensures entry_back { EntryBack info.now place (memory_of memory.now) registers (numbered result) }
{
    let Some(header) = header_at(info, place) else {
        return Err(Question::X64Header);
    };
    let Some((_, framed)) = count(header.slots, header.frame) else {
        return Err(Question::X64Codes);
    };
    let Some(before) = registers.undo_all(header.slots, header.frame, framed, memory) else {
        return Err(Question::Stack);
    };
    Ok(before)
}
