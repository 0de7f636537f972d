// What the frames of a recorded fault are found by.
ghost use Rattle.std.specs.Prelude.{◌<◌};

use crate::Section;
use format::Machine;
use walk::Memory;

// The machine, the section that the rules come from, the memory that was recorded, and where the functions are.
#[derive(Clone, Copy)]
pub struct Fault<'s, 'm, 'f> {
    pub machine: Machine,
    pub section: Section<'s>,
    pub memory: Memory<'m>,
    pub functions: &'f [u64],
    ghost named: { machine.ret < 65536 },
}
