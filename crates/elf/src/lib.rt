// The tables of an ELF file, little-endian, of 32 or 64 bits (System V gABI), over its bytes as they are
// lent.
#![tactic(auto)]

pub mod class;
pub mod fields;
pub mod header;
pub mod notes;
pub mod refusal;
pub mod search;
pub mod section;
pub mod sections;
pub mod segments;
pub mod table;

pub use class::Class;
pub use header::{ElfHeader, unwind_elf_header};
pub use notes::{ElfNote, unwind_elf_note, unwind_elf_note_named};
pub use refusal::{Reason, Refusal};
pub use search::search_law;
pub use section::{ElfSection, unwind_elf_section, unwind_elf_section_named};
pub use sections::{ElfSections, Sections, unwind_elf_sections};
pub use segments::{ElfSegment, ElfSegments, unwind_elf_segment, unwind_elf_segments};
pub use table::{Table, table_law};
