// Unwind operation codes (Microsoft, "x64 exception handling", "Unwind operation code").
pub const UWOP_PUSH_NONVOL: u64 = 0;

pub const UWOP_ALLOC_LARGE: u64 = 1;

pub const UWOP_ALLOC_SMALL: u64 = 2;

pub const UWOP_SET_FPREG: u64 = 3;

pub const UWOP_SAVE_NONVOL: u64 = 4;

pub const UWOP_SAVE_NONVOL_FAR: u64 = 5;

pub const UWOP_SAVE_XMM128: u64 = 8;

pub const UWOP_SAVE_XMM128_FAR: u64 = 9;
