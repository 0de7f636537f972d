//! The section table of a file (gABI, "Sections" and "Extended section numbering").

ghost use Rattle.std.specs.Prelude.{◌≡◌, ◌+◌, ◌≤◌, ◌<◌, length, true, IfOk};
ghost use Rattle.elf.specs.Header.{header_size};
ghost use Rattle.elf.specs.Sections.{section_size, shoff, sections_place, table_in, has_first, count_of, names_of, checked, table_at, sections_of, file_sections, sections_answer, sections_numbers, refused_sections, entry_in, entry_at};
ghost use Rattle.elf.specs.Tables.{is_inside};

use crate::class::Class;
use crate::fields::{u16_at, u32_at, word_at};
use crate::header::class_of;
use crate::refusal::{Reason, Refusal};
use crate::table::Table;

/// A section table that lies in its file.
#[derive(Clone, Copy)]
pub struct Sections {
    pub class: Class,
    pub place: u64,
    pub count: u64,
    /// The index of the section that has the sections' names; 0 where they have none.
    pub names: u64,
}

/// The size of a section's entry.
pub fn section_size(class: Class) -> usize
    ensures { result ≡ section_size class }
{
    class.pick(40, 64)
}

impl Sections {
    /// The table, without what its entries mean.
    pub fn table(self) -> Table
        ensures { result ≡ table_in self }
    {
        Table {
            place: self.place,
            size: section_size(self.class) as u64,
            count: self.count,
        }
    }
}

pub fn shoff(class: Class) -> usize
    ensures { result ≡ shoff class }
{
    class.pick(32, 40)
}

/// Where the section table stands; 0 where there is none.
pub fn sections_place(class: Class, file: &[u8]) -> u64
    requires { header_size class ≤ length file.now }
    ensures { result ≡ sections_place class file.now }
{
    word_at(class, file, shoff(class))
}

/// Whether section 0's entry lies in the file, where the table stands at a place.
pub fn has_first(class: Class, file: &[u8], place: u64) -> bool
    ensures { result ≡ has_first class file.now place }
{
    let size = section_size(class) as u64;
    Table {
        place,
        size,
        count: 1,
    }
    .is_inside(file.len() as u64)
}

#[tactic(auto, unfolding(crate::specs::Sections::count_of))]
fn count(class: Class, file: &[u8], place: u64) -> u64
    requires header { header_size class ≤ length file.now }
    requires first { place + section_size class ≤ length file.now }
    ensures { result ≡ count_of class file.now place }
{
    match u16_at(file, class.pick(48, 60)) {
        0 => word_at(class, file, place as usize + class.pick(20, 32)),
        count => u64::from(count),
    }
}

#[tactic(auto, unfolding(crate::specs::Sections::names_of))]
fn names(class: Class, file: &[u8], place: u64) -> u64
    requires header { header_size class ≤ length file.now }
    requires first { place + section_size class ≤ length file.now }
    ensures { result ≡ names_of class file.now place }
{
    match u16_at(file, class.pick(50, 62)) {
        0xffff => u64::from(u32_at(file, place as usize + class.pick(24, 40))),
        names => u64::from(names),
    }
}

#[tactic(auto, unfolding(crate::specs::Sections::checked))]
fn checked(sections: Sections, file: &[u8]) -> Result<Sections, Refusal>
    ensures value { result ≡ checked sections file.now }
    ensures inside { IfOk result (λ t. is_inside (table_in t) (length file.now) ≡ true) }
{
    if !sections.table().is_inside(file.len() as u64) {
        return Err(Refusal::new(Reason::Outside, shoff(sections.class) as u64));
    }
    if sections.names == 0 || sections.names < sections.count {
        Ok(sections)
    } else {
        Err(Refusal::new(Reason::Name, sections.class.pick(50, 62) as u64))
    }
}

#[tactic(auto, unfolding(crate::specs::Sections::table_at))]
fn table_at(class: Class, file: &[u8], place: u64) -> Result<Sections, Refusal>
    requires { header_size class ≤ length file.now }
    ensures value { result ≡ table_at class file.now place }
    ensures inside { IfOk result (λ t. is_inside (table_in t) (length file.now) ≡ true) }
{
    if usize::from(u16_at(file, class.pick(46, 58))) != section_size(class) {
        return Err(Refusal::new(Reason::EntrySize, class.pick(46, 58) as u64));
    }
    if !has_first(class, file, place) {
        return Err(Refusal::new(Reason::Outside, shoff(class) as u64));
    }
    let count = count(class, file, place);
    let names = names(class, file, place);
    checked(
        Sections {
            class,
            place,
            count,
            names,
        },
        file,
    )
}

/// The section table of a file whose header lies in it.
#[tactic(auto, unfolding(crate::specs::Sections::sections_of))]
pub fn sections_of(class: Class, file: &[u8]) -> Result<Sections, Refusal>
    requires { header_size class ≤ length file.now }
    ensures value { result ≡ sections_of class file.now }
    ensures inside { IfOk result (λ t. is_inside (table_in t) (length file.now) ≡ true) }
{
    let place = sections_place(class, file);
    if place == 0 {
        return Ok(Sections {
            class,
            place: 0,
            count: 0,
            names: 0,
        });
    }
    table_at(class, file, place)
}

/// The section table of a file.
#[tactic(auto, unfolding(crate::specs::Sections::file_sections))]
pub fn file_sections(file: &[u8]) -> Result<Sections, Refusal>
    ensures value { result ≡ file_sections file.now }
    ensures inside { IfOk result (λ t. is_inside (table_in t) (length file.now) ≡ true) }
{
    let class = class_of(file)?;
    sections_of(class, file)
}

/// What a section's entry says, and where the entry stands.
#[derive(Clone, Copy)]
pub struct SectionEntry {
    pub at: u64,
    /// Where its name begins in the section of names.
    pub name: u32,
    pub kind: u32,
    pub flags: u64,
    pub address: u64,
    pub place: u64,
    pub size: u64,
    pub link: u32,
    pub info: u32,
    pub align: u64,
    pub entry_size: u64,
}

fn entry_in(class: Class, at: u64, entry: &[u8]) -> SectionEntry
    requires { length entry.now ≡ section_size class }
    ensures { result ≡ entry_in class at entry.now }
{
    SectionEntry {
        at,
        name: u32_at(entry, 0),
        kind: u32_at(entry, 4),
        flags: word_at(class, entry, 8),
        address: word_at(class, entry, class.pick(12, 16)),
        place: word_at(class, entry, class.pick(16, 24)),
        size: word_at(class, entry, class.pick(20, 32)),
        link: u32_at(entry, class.pick(24, 40)),
        info: u32_at(entry, class.pick(28, 44)),
        align: word_at(class, entry, class.pick(32, 48)),
        entry_size: word_at(class, entry, class.pick(36, 56)),
    }
}

impl Sections {
    /// The entry of a section.
    #[tactic(auto, unfolding(crate::specs::Sections::entry_at))]
    pub fn entry(self, file: &[u8], index: u64) -> Result<SectionEntry, Refusal>
        requires { is_inside (table_in self) (length file.now) ≡ true }
        ensures value { result ≡ entry_at file.now self index }
        ensures inside { IfOk result (λ e. e.at + section_size self.class ≤ length file.now) }
        ensures there { IfOk result (λ _. index < self.count) }
    {
        let table = self.table();
        let entry = table.get(file, index)?;
        Ok(entry_in(
            self.class,
            table.entry_place(index, file.len() as u64),
            entry,
        ))
    }
}

/// What unwind_elf_sections answers: where the section table stands, how many sections it has, and which one
/// has their names.
// Kept: a number beside the fields, since C reads it.
#[repr(C)]
#[derive(Clone, Copy, Default)]
pub struct ElfSections {
    pub number: u64,
    pub at: u64,
    pub place: u64,
    pub count: u64,
    pub names: u64,
}

fn numbers(sections: Sections) -> ElfSections
    ensures { result ≡ sections_numbers sections }
{
    ElfSections {
        number: 0,
        at: 0,
        place: sections.place,
        count: sections.count,
        names: sections.names,
    }
}

fn refused(refusal: Refusal) -> ElfSections
    ensures { result ≡ refused_sections refusal }
{
    ElfSections {
        number: refusal.reason.number(),
        at: refusal.place,
        ..ElfSections::default()
    }
}

/// The section table of a file, or a refusal by 101 to 105.
#[unsafe(no_mangle)]
pub extern "C" fn unwind_elf_sections(file: &[u8]) -> ElfSections
    ensures { result ≡ sections_answer file.now }
{
    match file_sections(file) {
        Ok(sections) => numbers(sections),
        Err(refusal) => refused(refusal),
    }
}
