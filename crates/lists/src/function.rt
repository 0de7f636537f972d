// Where the numbers of a function's record stand behind its symbol (document 01, "Machine, function and row").
pub const LENGTH: usize = 1;

pub const ROWS_AT: usize = 2;

pub const ROWS: usize = 3;

pub const LANDINGS_AT: usize = 4;

pub const LANDINGS: usize = 5;

pub const SIMPLE: usize = 6;

pub const SIGNAL: usize = 7;

pub const PERSONALITY: usize = 8;

pub const ENCODING: usize = 9;

pub const ROUTINE: usize = 10;

pub const LSDA: usize = 11;

pub const LSDA_ENCODING: usize = 12;

pub const LSDA_SYMBOL: usize = 13;

pub const RELAXED: usize = 14;

pub const END: usize = 15;

pub const PAIRS_AT: usize = 16;

pub const PAIRS: usize = 17;
