// Where the bit fields of a full record's words begin, each as 2 to the number of its first bit (Microsoft, "ARM64 exception handling", ".xdata records").
// The first word: the length in instructions ends where the version begins.
pub const VERSION: u64 = 262144;

pub const HANDLER: u64 = 1048576;

pub const SINGLE: u64 = 2097152;

pub const COUNT: u64 = 4194304;

pub const WORDS: u64 = 134217728;

// The second word of a long header: the count of epilogues ends where that of words of codes begins.
pub const LONG_WORDS: u64 = 65536;

// The word of an epilogue: its start in instructions ends where the reserved bits begin.
pub const RESERVED: u64 = 262144;

pub const INDEX: u64 = 4194304;
