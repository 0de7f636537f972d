//! A section as a table of entries of one size.

ghost use Rattle.std.specs.Prelude.{◌≡◌, ◌+◌, ◌≤◌, ◌<◌, length, true, IfOk};
ghost use Rattle.elf.specs.Sections.{section_size};
ghost use Rattle.elf.specs.Tables.{is_inside};
ghost use Rattle.elf_symbols.specs.Entries.{entries_in};

use elf::refusal::{Reason, Refusal};
use elf::sections::{SectionEntry, Sections};
use elf::table::Table;

/// The entries in a section's bytes, where it says that they have this size and they are all of its bytes.
#[tactic(auto, unfolding(crate::specs::Entries::entries_in))]
pub fn entries_in(
    file: &[u8],
    sections: Sections,
    entry: SectionEntry,
    size: usize,
) -> Result<Table, Refusal>
    requires inside { entry.at + section_size sections.class ≤ length file.now }
    requires some { 0 < size }
    ensures value { result ≡ entries_in file.now sections entry size }
    ensures inside { IfOk result (λ t. is_inside t (length file.now) ≡ true) }
    ensures size { IfOk result (λ t. t.size ≡ size) }
{
    let bytes = sections.plain_bytes(file, entry)?;
    let size = size as u64;
    if entry.entry_size != size {
        return Err(Refusal::new(
            Reason::EntrySize,
            entry.at + sections.class.pick(36, 56) as u64,
        ));
    }
    if bytes.length % size != 0 {
        return Err(Refusal::new(
            Reason::EntrySize,
            entry.at + sections.class.pick(20, 32) as u64,
        ));
    }
    Ok(Table {
        place: bytes.place,
        size,
        count: bytes.length / size,
    })
}
