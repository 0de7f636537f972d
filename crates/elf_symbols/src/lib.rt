// What tables in sections of an ELF file hold: symbols and relocations (System V gABI), and the function at
// an address.
#![tactic(auto)]

pub mod entries;
pub mod functions;
pub mod relocations;
pub mod symbols;

pub use functions::{nearest_law, unwind_elf_symbol_at};
pub use relocations::{ElfRelocation, unwind_elf_relocation};
pub use symbols::{ElfSymbol, unwind_elf_symbol};
