// Kinds of a row in a list, in document 01's order; the last two are document 02's (W-207).
pub const DEF_CFA: u64 = 0;

pub const DEF_CFA_OFFSET: u64 = 1;

pub const DEF_CFA_REGISTER: u64 = 2;

pub const OFFSET: u64 = 3;

pub const RESTORE: u64 = 4;

pub const UNDEFINED: u64 = 5;

pub const REMEMBER_STATE: u64 = 6;

pub const RESTORE_STATE: u64 = 7;

pub const NEGATE_RA_STATE: u64 = 8;

pub const SAME_VALUE: u64 = 9;

pub const IN_REGISTER: u64 = 10;
