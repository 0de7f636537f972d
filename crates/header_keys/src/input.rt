// What the passes over a section's functions read.
ghost use Rattle.format.proofs.Fits.{MachineFits};
ghost use Rattle.std.proofs.Props.{props};

use format::{Machine, Section};
use lists::{Extent, Lists};

// A section of a machine's functions. The machine has been asked question 11.
#[derive(Clone, Copy)]
pub struct Input<'a> {
    pub section: Section,
    pub machine: Machine,
    pub lists: Lists<'a>,
    pub ghost fits: { MachineFits machine } by { Prim.hlevel props },
}

impl Input<'_> {
    ghost use Rattle.std.specs.Prelude.{◌≡◌, ◌+◌, ◌*◌, ◌≤◌, length};
    ghost use Rattle.format.specs.Lists.{function_stride};
    ghost use Rattle.header_keys.specs.Inputs.{inputs_of, extent_in};

    // Function k as the section takes it.
    pub fn function(&self, k: usize) -> Extent
        requires { function_stride * k + function_stride ≤ length self.now.lists.functions.now }
        ensures { result ≡ extent_in (inputs_of self.now) k }
    {
        crate::taken(self.section, lists::extent_at(self.lists.functions, k))
    }
}
