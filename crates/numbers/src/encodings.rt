// Encodings of pointers (LSB, "DWARF Exception Header Encoding").
pub const DW_EH_PE_ABSPTR: u64 = 0x00;

pub const DW_EH_PE_UDATA4: u64 = 0x03;

pub const DW_EH_PE_UDATA8: u64 = 0x04;

pub const DW_EH_PE_SDATA4: u64 = 0x0b;

pub const DW_EH_PE_SDATA8: u64 = 0x0c;

pub const DW_EH_PE_PCREL: u64 = 0x10;

// DW_EH_PE_pcrel with the two of 4 bytes, and the second read through a pointer (DW_EH_PE_indirect).
pub const PCREL_UDATA4: u64 = 0x13;

pub const PCREL_SDATA4: u64 = 0x1b;

pub const INDIRECT_PCREL_SDATA4: u64 = 0x9b;

pub const DW_EH_PE_INDIRECT: u64 = 0x80;

// The bytes of a table of call sites: a pointer that is not there, and numbers in ULEB128.
pub const DW_EH_PE_OMIT: u8 = 0xff;

pub const DW_EH_PE_ULEB128: u8 = 0x01;
