// Where the bit fields of a packed word begin behind its flag, each as 2 to the number of its first bit (Microsoft, "ARM64 exception handling", "Packed unwind data").
pub const LENGTH: u64 = 4;

pub const VECTORS: u64 = 8192;

pub const REGISTERS: u64 = 65536;

pub const HOMES: u64 = 1048576;

pub const CHAIN: u64 = 2097152;

pub const FRAME: u64 = 8388608;
