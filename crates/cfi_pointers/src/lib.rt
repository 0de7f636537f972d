//! Pointers of call frame information in each of their encodings (LSB Core, "DWARF Exception Header
//! Encoding").
#![tactic(auto)]

pub mod encoding;
pub mod pointer;
pub mod size;

pub use encoding::{Base, Encoding, Format};
pub use pointer::{Bases, Pointer, pointer_at, size_at};
pub use size::AddressSize;
