//! The state: the rules that hold, and a log from which the stored ones come back.
ghost use Rattle.std.specs.Prelude.{◌≡◌, length, reverse};
ghost use Rattle.cfi_rules.specs.Registers.{total};
ghost use Rattle.cfi_rules.specs.Log.{stored_of};

use crate::log::Log;
use crate::rule::{Frame, Rule};

#[derive(Drop)]
pub struct State {
    /// The first of the 128 registers that are followed.
    pub first: u16,
    pub rules: [Rule; 128],
    /// The rules after the CIE's operations, while those are done all unstated.
    pub initial: [Rule; 128],
    /// Whether the operations are a CIE's.
    pub header: bool,
    pub frame: Frame,
    /// The size of the arguments on the stack, as it was said last.
    pub args: u64,
    pub log: Log,
    /// How many states are stored.
    pub depth: usize,
    pub ghost counted: { length (stored_of rules (reverse log)) ≡ depth },
    pub ghost filled: { total (stored_of rules (reverse log)) ≡ length log },
}
