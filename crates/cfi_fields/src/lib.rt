//! The fields of CIEs and FDEs, as any compiler writes them (DWARF 5, 6.4.1; LSB Core, "Exception Frames").
#![tactic(auto)]

pub mod augmentation;
pub mod cie;
pub mod fde;

pub use augmentation::{Augmentation, Personality};
pub use cie::{Cie, cie_at};
pub use fde::{Fde, Lsda, fde_at};
