// The list of a machine (document 01, "Machine, function and row"): how many numbers it has, and where each stands. RESERVED is a 0.
pub const STRIDE: usize = 70;

pub const WORD: usize = 0;

pub const PUSHED: usize = 1;

pub const STACK: usize = 2;

pub const RET: usize = 3;

pub const FRAME: usize = 4;

pub const RESERVED: usize = 5;

pub const MAP: usize = 6;

// How many DWARF numbers the map is for.
pub const MAPPED: usize = 64;

// The frame pointer of a machine that has none: no row's register is it.
pub const NO_FRAME_POINTER: u64 = 65536;
