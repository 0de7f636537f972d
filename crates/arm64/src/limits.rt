// What a full record holds at most (Microsoft, "ARM64 exception handling", ".xdata records"): instructions of a function, its epilogues, and bytes of codes.
pub const LONGEST: u64 = 262143;

pub const MOST_EPILOGUES: usize = 65535;

pub const MOST_CODES: usize = 1020;

// What the short header holds at most: a count, of epilogues or of words of codes; the index of an only epilogue; and bytes of codes, with and without
// the code that ends the prologue's.
pub const SHORT_COUNT: u64 = 31;

pub const SHORT_INDEX: usize = 31;

pub const SHORT_CODES: usize = 124;

pub const SHORT_PROLOGUE: usize = 123;
