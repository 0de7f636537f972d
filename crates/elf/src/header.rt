//! The header of an ELF file (gABI, "ELF Header").

ghost use Rattle.std.specs.Prelude.{◌≡◌, ◌+◌, ◌≤◌, length, IfOk};
ghost use Rattle.elf.specs.Header.{is_magic, class_at, header_size, class_of, header_of, header_answer, refused_header};

use crate::class::Class;
use crate::fields::{u16_at, u32_at, word_at};
use crate::refusal::{Reason, Refusal};

/// What unwind_elf_header answers: a number of 0, or why not and the place at fault, and then the rest is 0.
// Kept: a number beside the fields, since C reads it.
#[repr(C)]
#[derive(Clone, Copy, Default)]
pub struct ElfHeader {
    pub number: u64,
    pub at: u64,
    /// 32 or 64.
    pub class_bits: u64,
    /// e_type: 1 a relocatable file, 2 an executable, 3 a shared object, 4 a core file.
    pub kind: u64,
    pub machine: u64,
    pub flags: u64,
    pub entry: u64,
}

fn is_magic(file: &[u8]) -> bool
    requires { 16 ≤ length file.now }
    ensures { result ≡ is_magic file.now }
{
    file[0] == 0x7f && file[1] == b'E' && file[2] == b'L' && file[3] == b'F'
}

fn class_at(number: u8) -> Result<Class, Refusal>
    ensures { result ≡ class_at number }
{
    match number {
        1 => Ok(Class::Bits32),
        2 => Ok(Class::Bits64),
        _ => Err(Refusal::new(Reason::Unknown, 4)),
    }
}

fn header_size(class: Class) -> usize
    ensures { result ≡ header_size class }
{
    class.pick(52, 64)
}

/// The class of a file whose header lies in it.
#[tactic(auto, unfolding(crate::specs::Header::class_of))]
pub fn class_of(file: &[u8]) -> Result<Class, Refusal>
    ensures value { result ≡ class_of file.now }
    ensures long { IfOk result (λ c. header_size c ≤ length file.now) }
{
    if file.len() < 16 || !is_magic(file) {
        return Err(Refusal::new(Reason::NotElf, 0));
    }
    let class = class_at(file[4])?;
    if file[5] != 1 {
        return Err(Refusal::new(Reason::Unknown, 5));
    }
    if file[6] != 1 {
        return Err(Refusal::new(Reason::Unknown, 6));
    }
    if file.len() < header_size(class) {
        return Err(Refusal::new(Reason::Outside, 0));
    }
    if u32_at(file, 20) != 1 {
        return Err(Refusal::new(Reason::Unknown, 20));
    }
    Ok(class)
}

fn header_in(class: Class, file: &[u8]) -> ElfHeader
    requires { header_size class ≤ length file.now }
    ensures { result ≡ header_of class file.now }
{
    ElfHeader {
        number: 0,
        at: 0,
        class_bits: if class.is_wide() { 64 } else { 32 },
        kind: u64::from(u16_at(file, 16)),
        machine: u64::from(u16_at(file, 18)),
        flags: u64::from(u32_at(file, class.pick(36, 48))),
        entry: word_at(class, file, 24),
    }
}

fn refused(refusal: Refusal) -> ElfHeader
    ensures { result ≡ refused_header refusal }
{
    ElfHeader {
        number: refusal.reason.number(),
        at: refusal.place,
        ..ElfHeader::default()
    }
}

/// The header of a file, or a refusal by 101, 102 or 103.
#[unsafe(no_mangle)]
pub extern "C" fn unwind_elf_header(file: &[u8]) -> ElfHeader
    ensures { result ≡ header_answer file.now }
{
    match class_of(file) {
        Ok(class) => header_in(class, file),
        Err(refusal) => refused(refusal),
    }
}
