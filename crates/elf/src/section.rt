//! One section: its entry, its name and its bytes (gABI, "Sections" and "String Table").

ghost use Rattle.std.specs.Prelude.{◌≡◌, ◌+◌, ◌≤◌, ◌<◌, length, true, IfOk};
ghost use Rattle.elf.specs.Fields.{piece};
ghost use Rattle.elf.specs.Section.{is_empty, has_compressed_flag, is_compressed, end_of, bytes_of, plain_bytes_of, name_in, strings_of, name_of, section_numbers, SectionLiesIn, section_in, section_at, has_name, named_in, section_named, refused_section, section_answer};
ghost use Rattle.elf.specs.Searches.{first};
ghost use Rattle.elf.specs.Sections.{section_size, table_in};
ghost use Rattle.elf.specs.Tables.{is_inside};

use crate::refusal::{Reason, Refusal};
use crate::sections::{SectionEntry, Sections, file_sections};

/// SHT_NULL and SHT_NOBITS, whose sections have no bytes.
const SHT_NULL: u32 = 0;

const SHT_NOBITS: u32 = 8;

/// The flag of a section that is compressed.
const SHF_COMPRESSED: u64 = 0x800;

/// Bytes of a file: where they stand, and how many they are.
#[derive(Clone, Copy)]
pub struct Span {
    pub place: u64,
    pub length: u64,
}

impl Span {
    /// The bytes of a file.
    pub fn of(self, file: &[u8]) -> &[u8]
        requires { self.place + self.length ≤ length file.now }
        ensures { result.now ≡ piece file.now self.place self.length }
    {
        &file[self.place as usize..(self.place + self.length) as usize]
    }
}

impl SectionEntry {
    /// Whether the section has no bytes in the file.
    fn is_empty(self) -> bool
        ensures { result ≡ is_empty self }
    {
        self.kind == SHT_NULL || self.kind == SHT_NOBITS
    }

    fn has_compressed_flag(self) -> bool
        ensures { result ≡ has_compressed_flag self }
    {
        self.flags & SHF_COMPRESSED != 0
    }

    /// Whether the section is compressed, by its flag or by its name.
    fn is_compressed(self, name: &[u8]) -> bool
        ensures { result ≡ is_compressed self name.now }
    {
        self.has_compressed_flag() || name.starts_with(b".zdebug")
    }
}

impl Sections {
    /// The bytes of a section; a section without bytes has none, wherever it says that they stand.
    #[tactic(auto, unfolding(crate::specs::Section::bytes_of))]
    fn bytes(self, file: &[u8], entry: SectionEntry) -> Result<Span, Refusal>
        requires { entry.at + section_size self.class ≤ length file.now }
        ensures value { result ≡ bytes_of file.now self entry }
        ensures inside { IfOk result (λ s. s.place + s.length ≤ length file.now) }
        ensures place { IfOk result (λ s. 0 < s.length → s.place ≡ entry.place) }
    {
        if entry.is_empty() {
            return Ok(Span {
                place: 0,
                length: 0,
            });
        }
        let len = file.len() as u64;
        if entry.size > len || entry.place > len - entry.size {
            return Err(Refusal::new(Reason::Outside, entry.at + self.class.pick(16, 24) as u64));
        }
        Ok(Span {
            place: entry.place,
            length: entry.size,
        })
    }

    /// The bytes of a section that is not compressed.
    #[tactic(auto, unfolding(crate::specs::Section::plain_bytes_of))]
    pub fn plain_bytes(self, file: &[u8], entry: SectionEntry) -> Result<Span, Refusal>
        requires { entry.at + section_size self.class ≤ length file.now }
        ensures value { result ≡ plain_bytes_of file.now self entry }
        ensures inside { IfOk result (λ s. s.place + s.length ≤ length file.now) }
    {
        if entry.has_compressed_flag() {
            return Err(Refusal::new(Reason::Compressed, entry.at + 8));
        }
        self.bytes(file, entry)
    }

    /// The bytes of the section at an index that has strings.
    #[tactic(auto, unfolding(crate::specs::Section::strings_of))]
    pub fn strings(self, file: &[u8], index: u64) -> Result<Span, Refusal>
        requires { is_inside (table_in self) (length file.now) ≡ true }
        ensures value { result ≡ strings_of file.now self index }
        ensures inside { IfOk result (λ s. s.place + s.length ≤ length file.now) }
    {
        let entry = self.entry(file, index)?;
        self.plain_bytes(file, entry)
    }
}

/// Where the first 0 is.
pub fn end_of(text: &[u8]) -> Option<usize>
    ensures { result ≡ end_of text.now }
{
    text.iter().position(|b| *b == 0)
}

/// The name that begins at an offset in strings, up to its 0; where there is none, what stands at `fault` is
/// wrong.
#[tactic(auto, unfolding(crate::specs::Section::name_in))]
pub fn name_in(file: &[u8], strings: Span, offset: u64, fault: u64) -> Result<Span, Refusal>
    requires { strings.place + strings.length ≤ length file.now }
    ensures value { result ≡ name_in file.now strings offset fault }
    ensures inside { IfOk result (λ s. s.place + s.length ≤ length file.now) }
{
    if offset == 0 && strings.length == 0 {
        return Ok(strings);
    }
    if offset > strings.length {
        return Err(Refusal::new(Reason::Name, fault));
    }
    let rest = Span {
        place: strings.place + offset,
        length: strings.length - offset,
    };
    match end_of(rest.of(file)) {
        Some(end) => Ok(Span {
            place: rest.place,
            length: end as u64,
        }),
        None => Err(Refusal::new(Reason::Name, fault)),
    }
}

impl Sections {
    /// The name of a section; an empty one where the sections have no names.
    #[tactic(auto, unfolding(crate::specs::Section::name_of))]
    fn name(self, file: &[u8], entry: SectionEntry) -> Result<Span, Refusal>
        requires { is_inside (table_in self) (length file.now) ≡ true }
        ensures value { result ≡ name_of file.now self entry }
        ensures inside { IfOk result (λ s. s.place + s.length ≤ length file.now) }
    {
        if self.names == 0 {
            return Ok(Span {
                place: 0,
                length: 0,
            });
        }
        let strings = self.strings(file, self.names)?;
        name_in(file, strings, u64::from(entry.name), entry.at)
    }
}

/// What unwind_elf_section answers.
// Kept: a number beside the fields, since C reads it.
#[repr(C)]
#[derive(Clone, Copy, Default)]
pub struct ElfSection {
    pub number: u64,
    pub at: u64,
    pub index: u64,
    /// Where its name stands in the file.
    pub name: u64,
    pub name_length: u64,
    pub kind: u64,
    pub flags: u64,
    pub address: u64,
    pub place: u64,
    pub size: u64,
    /// How many bytes stand at its place: its size, and 0 where it has no bytes.
    pub length: u64,
    pub link: u64,
    pub info: u64,
    pub align: u64,
    pub entry_size: u64,
    /// 1 where its bytes are compressed, by its flag or by its name.
    pub compressed: u64,
}

fn numbers(index: u64, entry: SectionEntry, name: Span, bytes: Span, compressed: bool) -> ElfSection
    ensures { result ≡ section_numbers index entry name bytes compressed }
{
    ElfSection {
        number: 0,
        at: 0,
        index,
        name: name.place,
        name_length: name.length,
        kind: u64::from(entry.kind),
        flags: entry.flags,
        address: entry.address,
        place: entry.place,
        size: entry.size,
        length: bytes.length,
        link: u64::from(entry.link),
        info: u64::from(entry.info),
        align: entry.align,
        entry_size: entry.entry_size,
        compressed: u64::from(compressed),
    }
}

impl Sections {
    /// The section at an index.
    #[tactic(auto, unfolding(crate::specs::Section::section_in))]
    pub fn section(self, file: &[u8], index: u64) -> Result<ElfSection, Refusal>
        requires { is_inside (table_in self) (length file.now) ≡ true }
        ensures value { result ≡ section_in file.now self index }
        ensures inside { IfOk result (SectionLiesIn (length file.now)) }
    {
        let entry = self.entry(file, index)?;
        let name = self.name(file, entry)?;
        let bytes = self.bytes(file, entry)?;
        let compressed = entry.is_compressed(name.of(file));
        Ok(numbers(index, entry, name, bytes, compressed))
    }
}

#[tactic(auto, unfolding(crate::specs::Section::section_at))]
fn section_at(file: &[u8], index: u64) -> Result<ElfSection, Refusal>
    ensures value { result ≡ section_at file.now index }
    ensures inside { IfOk result (SectionLiesIn (length file.now)) }
{
    let sections = file_sections(file)?;
    sections.section(file, index)
}

impl Sections {
    /// Whether the section at an index has this name.
    #[tactic(auto, unfolding(crate::specs::Section::has_name))]
    fn has_name(self, file: &[u8], wanted: &[u8], index: u64) -> bool
        requires { is_inside (table_in self) (length file.now) ≡ true }
        ensures { result ≡ has_name file.now self wanted.now index }
    {
        let Ok(entry) = self.entry(file, index) else {
            return false;
        };
        match self.name(file, entry) {
            Ok(name) => name.of(file) == wanted,
            Err(_) => false,
        }
    }

    /// The index of the first section of a name.
    #[tactic(auto, using(crate::proofs::Searches::search_steps))]
    fn position(self, file: &[u8], wanted: &[u8]) -> Option<u64>
        requires { is_inside (table_in self) (length file.now) ≡ true }
        ensures { result ≡ first (has_name file.now self wanted.now) self.count 0 }
    {
        for index in 0..self.count {
            if self.has_name(file, wanted, index) {
                return Some(index);
            }
        }
        None
    }

    /// The first section of a name.
    #[tactic(auto, unfolding(crate::specs::Section::named_in))]
    fn named(self, file: &[u8], wanted: &[u8]) -> Result<ElfSection, Refusal>
        requires { is_inside (table_in self) (length file.now) ≡ true }
        ensures value { result ≡ named_in file.now self wanted.now }
        ensures inside { IfOk result (SectionLiesIn (length file.now)) }
    {
        match self.position(file, wanted) {
            Some(index) => self.section(file, index),
            None => Err(Refusal::new(Reason::NoEntry, self.table().end(file.len() as u64))),
        }
    }
}

#[tactic(auto, unfolding(crate::specs::Section::section_named))]
fn section_named(file: &[u8], wanted: &[u8]) -> Result<ElfSection, Refusal>
    ensures value { result ≡ section_named file.now wanted.now }
    ensures inside { IfOk result (SectionLiesIn (length file.now)) }
{
    let sections = file_sections(file)?;
    sections.named(file, wanted)
}

fn refused(refusal: Refusal) -> ElfSection
    ensures { result ≡ refused_section refusal }
{
    ElfSection {
        number: refusal.reason.number(),
        at: refusal.place,
        ..ElfSection::default()
    }
}

/// The section at an index, or a refusal by 101 to 107. Its name and its bytes can be read where it says,
/// also after a refusal.
#[unsafe(no_mangle)]
pub extern "C" fn unwind_elf_section(file: &[u8], index: u64) -> ElfSection
    ensures value { result ≡ section_answer (section_at file.now index) }
    ensures inside { SectionLiesIn (length file.now) result }
{
    match section_at(file, index) {
        Ok(section) => section,
        Err(refusal) => refused(refusal),
    }
}

/// The first section of a name, or a refusal by 101 to 107. A section whose name cannot be read is passed
/// over.
#[unsafe(no_mangle)]
pub extern "C" fn unwind_elf_section_named(file: &[u8], name: &[u8]) -> ElfSection
    ensures value { result ≡ section_answer (section_named file.now name.now) }
    ensures inside { SectionLiesIn (length file.now) result }
{
    match section_named(file, name) {
        Ok(section) => section,
        Err(refusal) => refused(refusal),
    }
}
