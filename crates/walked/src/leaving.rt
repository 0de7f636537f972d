// A frame that is left for its caller.
ghost use Rattle.std.specs.Prelude.{T};
ghost use Rattle.walked.specs.Standing.{is_good, state_at};

use crate::Place;
use format::Machine;
use walk::Memory;

// The frame's registers, the place that it is at, whose rules can be read, and the memory that they are read from.
#[derive(Clone, Copy)]
pub struct Leaving<'s, 'm> {
    pub machine: Machine,
    pub registers: [Option<u64>; 128],
    pub at: Place<'s>,
    pub memory: Memory<'m>,
    ghost readable: { T (is_good (state_at at)) },
}
