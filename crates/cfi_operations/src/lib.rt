//! The operations of CIEs and FDEs, as any compiler writes them (DWARF 5, 6.4.2 and 7.24; the others by
//! binutils' dwarf2.def).
#![tactic(auto)]

pub mod operands;
pub mod operation;
pub mod products;

pub use operands::Block;
pub use operation::{Decoded, Operation, Units, operation_at};
