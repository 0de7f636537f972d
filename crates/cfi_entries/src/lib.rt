//! The entries of a section of call frame information, as any compiler writes it: CIEs, FDEs and terminators,
//! in 32-bit and 64-bit DWARF (DWARF 5, 6.4.1 and 7.4; LSB Core, "Exception Frames").
#![tactic(auto)]

pub mod entries;
pub mod places;
pub mod refusal;

pub use entries::{Entry, Kind, check_entries, cie_of, entry_at};
pub use refusal::{Question, Refusal};
