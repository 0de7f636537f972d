//! The symbols of a section (gABI, "Symbol Table").

ghost use Rattle.std.specs.Prelude.{◌≡◌, ◌+◌, ◌≤◌, ◌<◌, length, true, IfOk};
ghost use Rattle.elf.specs.Sections.{table_in};
ghost use Rattle.elf.specs.Tables.{is_inside};
ghost use Rattle.elf_symbols.specs.Symbols.{symbol_size, is_symbols, symbols_table, SymbolsLieIn, symbols_of, entry_in, entry_at, symbol_numbers, SymbolLiesIn, symbol_in, symbol_at, refused_symbol, symbol_answer};

use crate::entries::entries_in;
use elf::class::Class;
use elf::fields::{u16_at, u32_at, word_at};
use elf::refusal::{Reason, Refusal};
use elf::section::{Span, name_in};
use elf::sections::{SectionEntry, Sections, file_sections};
use elf::table::Table;

/// SHT_SYMTAB and SHT_DYNSYM.
const SHT_SYMTAB: u32 = 2;

const SHT_DYNSYM: u32 = 11;

/// The symbols of a section, and the strings that have their names; both lie in the file.
#[derive(Clone, Copy)]
pub struct Symbols {
    pub class: Class,
    pub place: u64,
    pub count: u64,
    pub strings: Span,
}

fn symbol_size(class: Class) -> usize
    ensures { result ≡ symbol_size class }
{
    class.pick(16, 24)
}

impl Symbols {
    pub fn table(self) -> Table
        ensures { result ≡ symbols_table self }
    {
        Table {
            place: self.place,
            size: symbol_size(self.class) as u64,
            count: self.count,
        }
    }
}

fn is_symbols(section: SectionEntry) -> bool
    ensures { result ≡ is_symbols section }
{
    section.kind == SHT_SYMTAB || section.kind == SHT_DYNSYM
}

/// The symbols of the section at an index.
#[tactic(auto, unfolding(crate::specs::Symbols::symbols_of))]
pub fn symbols_of(file: &[u8], sections: Sections, section: u64) -> Result<Symbols, Refusal>
    requires { is_inside (table_in sections) (length file.now) ≡ true }
    ensures value { result ≡ symbols_of file.now sections section }
    ensures inside { IfOk result (SymbolsLieIn (length file.now)) }
{
    let entry = sections.entry(file, section)?;
    if !is_symbols(entry) {
        return Err(Refusal::new(Reason::Kind, entry.at + 4));
    }
    let table = entries_in(file, sections, entry, symbol_size(sections.class))?;
    let strings = sections.strings(file, u64::from(entry.link))?;
    Ok(Symbols {
        class: sections.class,
        place: table.place,
        count: table.count,
        strings,
    })
}

/// What a symbol's entry says, and where the entry stands.
#[derive(Clone, Copy)]
pub struct SymbolEntry {
    pub at: u64,
    /// Where its name begins in the strings.
    pub name: u32,
    pub value: u64,
    pub size: u64,
    pub info: u8,
    pub other: u8,
    pub section: u16,
}

fn entry_in(class: Class, at: u64, entry: &[u8]) -> SymbolEntry
    requires { length entry.now ≡ symbol_size class }
    ensures { result ≡ entry_in class at entry.now }
{
    SymbolEntry {
        at,
        name: u32_at(entry, 0),
        value: word_at(class, entry, class.pick(4, 8)),
        size: word_at(class, entry, class.pick(8, 16)),
        info: entry[class.pick(12, 4)],
        other: entry[class.pick(13, 5)],
        section: u16_at(entry, class.pick(14, 6)),
    }
}

impl Symbols {
    /// The entry of a symbol.
    #[tactic(auto, unfolding(crate::specs::Symbols::entry_at))]
    pub fn entry(self, file: &[u8], index: u64) -> Result<SymbolEntry, Refusal>
        requires { SymbolsLieIn (length file.now) self }
        ensures { result ≡ entry_at file.now self index }
    {
        let table = self.table();
        let entry = table.get(file, index)?;
        Ok(entry_in(
            self.class,
            table.entry_place(index, file.len() as u64),
            entry,
        ))
    }
}

/// What unwind_elf_symbol answers.
// Kept: a number beside the fields, since C reads it.
#[repr(C)]
#[derive(Clone, Copy, Default)]
pub struct ElfSymbol {
    pub number: u64,
    pub at: u64,
    pub index: u64,
    /// Where its name stands in the file.
    pub name: u64,
    pub name_length: u64,
    pub value: u64,
    pub size: u64,
    /// STT_: 1 an object, 2 a function.
    pub kind: u64,
    /// STB_: 0 local, 1 global, 2 weak.
    pub binding: u64,
    /// STV_: 0 default, 1 internal, 2 hidden, 3 protected.
    pub visibility: u64,
    /// The index of its section: 0 undefined, 0xfff1 absolute, 0xfff2 common.
    pub section: u64,
}

fn numbers(index: u64, entry: SymbolEntry, name: Span) -> ElfSymbol
    ensures { result ≡ symbol_numbers index entry name }
{
    ElfSymbol {
        number: 0,
        at: 0,
        index,
        name: name.place,
        name_length: name.length,
        value: entry.value,
        size: entry.size,
        kind: u64::from(entry.info % 16),
        binding: u64::from(entry.info / 16),
        visibility: u64::from(entry.other % 4),
        section: u64::from(entry.section),
    }
}

impl Symbols {
    /// The symbol at an index, with its name.
    #[tactic(auto, unfolding(crate::specs::Symbols::symbol_in))]
    pub fn symbol(self, file: &[u8], index: u64) -> Result<ElfSymbol, Refusal>
        requires { SymbolsLieIn (length file.now) self }
        ensures value { result ≡ symbol_in file.now self index }
        ensures inside { IfOk result (SymbolLiesIn (length file.now)) }
    {
        let entry = self.entry(file, index)?;
        let name = name_in(file, self.strings, u64::from(entry.name), entry.at)?;
        Ok(numbers(index, entry, name))
    }
}

#[tactic(auto, unfolding(crate::specs::Symbols::symbol_at))]
fn symbol_at(file: &[u8], section: u64, index: u64) -> Result<ElfSymbol, Refusal>
    ensures value { result ≡ symbol_at file.now section index }
    ensures inside { IfOk result (SymbolLiesIn (length file.now)) }
{
    let sections = file_sections(file)?;
    let symbols = symbols_of(file, sections, section)?;
    symbols.symbol(file, index)
}

pub fn refused(refusal: Refusal) -> ElfSymbol
    ensures { result ≡ refused_symbol refusal }
{
    ElfSymbol {
        number: refusal.reason.number(),
        at: refusal.place,
        ..ElfSymbol::default()
    }
}

/// The symbol at an index of a section, or a refusal by 101 to 108. Its name can be read where it says, also
/// after a refusal.
#[unsafe(no_mangle)]
pub extern "C" fn unwind_elf_symbol(file: &[u8], section: u64, index: u64) -> ElfSymbol
    ensures value { result ≡ symbol_answer (symbol_at file.now section index) }
    ensures inside { SymbolLiesIn (length file.now) result }
{
    match symbol_at(file, section, index) {
        Ok(symbol) => symbol,
        Err(refusal) => refused(refusal),
    }
}
