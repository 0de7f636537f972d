//! The relocations of a section (gABI, "Relocation").

ghost use Rattle.std.specs.Prelude.{◌≡◌, ◌^◌, ◌<◌, length, true, IfOk};
ghost use Rattle.elf.specs.Sections.{table_in};
ghost use Rattle.elf.specs.Tables.{is_inside};
ghost use Rattle.elf_symbols.specs.Relocations.{relocation_size, relocations_table, has_addends_of, relocations_of, addend_in, relocation_in, relocation_at, refused_relocation, relocation_answer};

use crate::entries::entries_in;
use elf::class::Class;
use elf::fields::{u32_at, u64_at, word_at};
use elf::refusal::{Reason, Refusal};
use elf::sections::{SectionEntry, Sections, file_sections};
use elf::table::Table;

/// SHT_RELA, whose entries have addends, and SHT_REL.
const SHT_RELA: u32 = 4;

const SHT_REL: u32 = 9;

/// The relocations of a section; they lie in the file.
#[derive(Clone, Copy)]
pub struct Relocations {
    pub class: Class,
    pub addends: bool,
    pub place: u64,
    pub count: u64,
}

fn relocation_size(class: Class, addends: bool) -> usize
    ensures { result ≡ relocation_size class addends }
{
    if addends {
        class.pick(12, 24)
    } else {
        class.pick(8, 16)
    }
}

impl Relocations {
    fn table(self) -> Table
        ensures { result ≡ relocations_table self }
    {
        Table {
            place: self.place,
            size: relocation_size(self.class, self.addends) as u64,
            count: self.count,
        }
    }
}

fn has_addends(section: SectionEntry) -> Result<bool, Refusal>
    requires { section.at < 2 ^ 63 }
    ensures { result ≡ has_addends_of section }
{
    match section.kind {
        SHT_RELA => Ok(true),
        SHT_REL => Ok(false),
        _ => Err(Refusal::new(Reason::Kind, section.at + 4)),
    }
}

#[tactic(auto, unfolding(crate::specs::Relocations::relocations_of))]
fn relocations_of(file: &[u8], sections: Sections, section: u64) -> Result<Relocations, Refusal>
    requires { is_inside (table_in sections) (length file.now) ≡ true }
    ensures value { result ≡ relocations_of file.now sections section }
    ensures inside { IfOk result (λ r. is_inside (relocations_table r) (length file.now) ≡ true) }
{
    let entry = sections.entry(file, section)?;
    let addends = has_addends(entry)?;
    let table = entries_in(
        file,
        sections,
        entry,
        relocation_size(sections.class, addends),
    )?;
    Ok(Relocations {
        class: sections.class,
        addends,
        place: table.place,
        count: table.count,
    })
}

/// What unwind_elf_relocation answers.
// Kept: a number beside the fields, since C reads it.
#[repr(C)]
#[derive(Clone, Copy, Default)]
pub struct ElfRelocation {
    pub number: u64,
    pub at: u64,
    pub index: u64,
    pub place: u64,
    /// The index of its symbol.
    pub symbol: u64,
    pub kind: u64,
    /// 64-bit two's complement; 0 where the entry has none.
    pub addend: u64,
    /// 1 where the entry has an addend; else that stands at the place.
    pub has_addend: u64,
}

impl Relocations {
    fn addend(self, entry: &[u8]) -> u64
        requires { length entry.now ≡ relocation_size self.class self.addends }
        ensures { result ≡ addend_in self entry.now }
    {
        if !self.addends {
            return 0;
        }
        if self.class.is_wide() {
            u64_at(entry, 16)
        } else {
            i64::from(u32_at(entry, 8).cast_signed()).cast_unsigned()
        }
    }

    fn relocation_in(self, index: u64, entry: &[u8]) -> ElfRelocation
        requires { length entry.now ≡ relocation_size self.class self.addends }
        ensures { result ≡ relocation_in self index entry.now }
    {
        let info = word_at(self.class, entry, self.class.pick(4, 8));
        let wide = self.class.is_wide();
        ElfRelocation {
            number: 0,
            at: 0,
            index,
            place: word_at(self.class, entry, 0),
            symbol: if wide {
                info / 0x1_0000_0000
            } else {
                info / 256
            },
            kind: if wide {
                info % 0x1_0000_0000
            } else {
                info % 256
            },
            addend: self.addend(entry),
            has_addend: u64::from(self.addends),
        }
    }
}

#[tactic(auto, unfolding(crate::specs::Relocations::relocation_at))]
fn relocation_at(file: &[u8], section: u64, index: u64) -> Result<ElfRelocation, Refusal>
    ensures { result ≡ relocation_at file.now section index }
{
    let sections = file_sections(file)?;
    let relocations = relocations_of(file, sections, section)?;
    let entry = relocations.table().get(file, index)?;
    Ok(relocations.relocation_in(index, entry))
}

fn refused(refusal: Refusal) -> ElfRelocation
    ensures { result ≡ refused_relocation refusal }
{
    ElfRelocation {
        number: refusal.reason.number(),
        at: refusal.place,
        ..ElfRelocation::default()
    }
}

/// The relocation at an index of a section, or a refusal by 101 to 103 or 105 to 108.
#[unsafe(no_mangle)]
pub extern "C" fn unwind_elf_relocation(file: &[u8], section: u64, index: u64) -> ElfRelocation
    ensures { result ≡ relocation_answer (relocation_at file.now section index) }
{
    match relocation_at(file, section, index) {
        Ok(relocation) => relocation,
        Err(refusal) => refused(refusal),
    }
}
