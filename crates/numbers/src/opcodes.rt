// Opcodes of call frame instructions (DWARF 5, 7.24, table 7.29).

// These three hold a number in their low six bits.
pub const DW_CFA_ADVANCE_LOC: u8 = 0x40;

pub const DW_CFA_OFFSET: u8 = 0x80;

pub const DW_CFA_RESTORE: u8 = 0xc0;

pub const DW_CFA_NOP: u8 = 0x00;

pub const DW_CFA_ADVANCE_LOC1: u8 = 0x02;

pub const DW_CFA_ADVANCE_LOC2: u8 = 0x03;

pub const DW_CFA_ADVANCE_LOC4: u8 = 0x04;

pub const DW_CFA_OFFSET_EXTENDED: u8 = 0x05;

pub const DW_CFA_RESTORE_EXTENDED: u8 = 0x06;

pub const DW_CFA_UNDEFINED: u8 = 0x07;

pub const DW_CFA_SAME_VALUE: u8 = 0x08;

pub const DW_CFA_REGISTER: u8 = 0x09;

pub const DW_CFA_REMEMBER_STATE: u8 = 0x0a;

pub const DW_CFA_RESTORE_STATE: u8 = 0x0b;

pub const DW_CFA_DEF_CFA: u8 = 0x0c;

pub const DW_CFA_DEF_CFA_REGISTER: u8 = 0x0d;

pub const DW_CFA_DEF_CFA_OFFSET: u8 = 0x0e;

pub const DW_CFA_OFFSET_EXTENDED_SF: u8 = 0x11;

pub const DW_CFA_DEF_CFA_SF: u8 = 0x12;

pub const DW_CFA_DEF_CFA_OFFSET_SF: u8 = 0x13;

// Of DWARF for the Arm 64-bit Architecture.
pub const DW_CFA_AARCH64_NEGATE_RA_STATE: u8 = 0x2d;
