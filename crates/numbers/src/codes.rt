// An x64 unwind code in a list (document 01): how many numbers it has, and its kinds.
pub const STRIDE: usize = 5;

pub const PUSH: u64 = 0;

pub const ALLOC: u64 = 1;

pub const FRAME: u64 = 2;

pub const SAVE: u64 = 3;
