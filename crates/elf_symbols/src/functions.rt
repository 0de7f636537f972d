//! The function symbol at an address.

ghost use Rattle.std.specs.Prelude.{◌≡◌, ◌^◌, ◌<◌, length, true, IfOk, None};
ghost use Rattle.elf.specs.Sections.{table_in};
ghost use Rattle.elf.specs.Tables.{is_inside};
ghost use Rattle.elf_symbols.specs.Functions.{is_function, start_of, stands_in, section_covers, covers, is_nearer, nearer, covering, nearest, FindsNearest, function_in, function_at};
ghost use Rattle.elf_symbols.specs.Symbols.{SymbolsLieIn, SymbolLiesIn, symbol_answer};

use crate::symbols::{ElfSymbol, SymbolEntry, Symbols, refused, symbols_of};
use elf::fields::u16_at;
use elf::header::class_of;
use elf::refusal::{Reason, Refusal};
use elf::sections::{Sections, sections_of};

/// STT_FUNC, and STT_GNU_IFUNC of the GNU tools.
const STT_FUNC: u8 = 2;

const STT_GNU_IFUNC: u8 = 10;

/// EM_ARM.
const EM_ARM: u16 = 40;

/// What is asked: a machine's address, and the index of a section that its symbol is to stand in, or 0.
#[derive(Clone, Copy)]
pub struct Place {
    pub machine: u16,
    pub section: u64,
    pub address: u64,
}

/// A function symbol that covers an address; its size is 0 where it has none.
#[derive(Clone, Copy)]
pub struct Function {
    pub index: u64,
    pub start: u64,
    pub size: u64,
}

impl SymbolEntry {
    fn is_function(self) -> bool
        ensures { result ≡ is_function self }
    {
        let kind = self.info % 16;
        kind == STT_FUNC || kind == STT_GNU_IFUNC
    }

    /// Where its code begins: on ARM a function's value has the Thumb mark in bit 0.
    fn start(self, machine: u16) -> u64
        ensures { result ≡ start_of machine self }
    {
        if machine == EM_ARM {
            self.value - self.value % 2
        } else {
            self.value
        }
    }

    fn stands_in(self, section: u64) -> bool
        ensures { result ≡ stands_in section self }
    {
        if section == 0 {
            self.section != 0
        } else {
            u64::from(self.section) == section
        }
    }
}

#[tactic(auto, unfolding(crate::specs::Functions::section_covers))]
fn section_covers(file: &[u8], sections: Sections, index: u64, address: u64) -> bool
    requires { is_inside (table_in sections) (length file.now) ≡ true }
    ensures { result ≡ section_covers file.now sections index address }
{
    match sections.entry(file, index) {
        Ok(section) => section.address <= address && address - section.address < section.size,
        Err(_) => false,
    }
}

#[tactic(auto, unfolding(crate::specs::Functions::covers))]
fn covers(file: &[u8], sections: Sections, entry: SymbolEntry, place: Place) -> bool
    requires { is_inside (table_in sections) (length file.now) ≡ true }
    ensures { result ≡ covers file.now sections entry place }
{
    let start = entry.start(place.machine);
    if place.address < start {
        return false;
    }
    if entry.size == 0 {
        section_covers(file, sections, u64::from(entry.section), place.address)
    } else {
        place.address - start < entry.size
    }
}

/// The symbol at an index, where it is a function's that covers the place.
#[tactic(auto, unfolding(crate::specs::Functions::covering))]
fn covering(
    file: &[u8],
    sections: Sections,
    symbols: Symbols,
    place: Place,
    index: u64,
) -> Option<Function>
    requires sections { is_inside (table_in sections) (length file.now) ≡ true }
    requires symbols { SymbolsLieIn (length file.now) symbols }
    ensures { result ≡ covering file.now sections symbols place index }
{
    let Ok(entry) = symbols.entry(file, index) else {
        return None;
    };
    if entry.is_function()
        && entry.stands_in(place.section)
        && covers(file, sections, entry, place)
    {
        Some(Function {
            index,
            start: entry.start(place.machine),
            size: entry.size,
        })
    } else {
        None
    }
}

impl Function {
    /// Whether another one is nearer: one with a size, then the one that begins later, then the shorter one.
    fn is_nearer(self, new: Function) -> bool
        ensures { result ≡ is_nearer self new }
    {
        if self.size == 0 && new.size != 0 {
            return true;
        }
        if self.size != 0 && new.size == 0 {
            return false;
        }
        if self.start == new.start {
            new.size < self.size
        } else {
            self.start < new.start
        }
    }
}

fn nearer(found: Option<Function>, new: Option<Function>) -> Option<Function>
    ensures { result ≡ nearer found new }
{
    match found {
        None => new,
        Some(old) => match new {
            None => Some(old),
            Some(new) => {
                if old.is_nearer(new) {
                    Some(new)
                } else {
                    Some(old)
                }
            }
        },
    }
}

/// The nearest function symbol that covers the place.
#[tactic(auto, using(crate::proofs::Nearest::nearest_later, crate::proofs::Nearest::nearest_none))]
fn nearest(file: &[u8], sections: Sections, symbols: Symbols, place: Place) -> Option<Function>
    requires sections { is_inside (table_in sections) (length file.now) ≡ true }
    requires symbols { SymbolsLieIn (length file.now) symbols }
    ensures { result ≡ nearest (covering file.now sections symbols place) symbols.count 0 None }
{
    let mut found = None;
    for index in 0..symbols.count {
        found = nearer(found, covering(file, sections, symbols, place, index));
    }
    found
}

#[tactic(auto, unfolding(crate::specs::Functions::function_in))]
fn function_in(
    file: &[u8],
    sections: Sections,
    symbols: Symbols,
    place: Place,
) -> Result<ElfSymbol, Refusal>
    requires sections { is_inside (table_in sections) (length file.now) ≡ true }
    requires symbols { SymbolsLieIn (length file.now) symbols }
    ensures value { result ≡ function_in file.now sections symbols place }
    ensures inside { IfOk result (SymbolLiesIn (length file.now)) }
{
    match nearest(file, sections, symbols, place) {
        Some(found) => symbols.symbol(file, found.index),
        None => Err(Refusal::new(Reason::NoEntry, symbols.table().end(file.len() as u64))),
    }
}

#[tactic(auto, unfolding(crate::specs::Functions::function_at))]
fn function_at(file: &[u8], table: u64, section: u64, address: u64) -> Result<ElfSymbol, Refusal>
    ensures value { result ≡ function_at file.now table section address }
    ensures inside { IfOk result (SymbolLiesIn (length file.now)) }
{
    let class = class_of(file)?;
    let sections = sections_of(class, file)?;
    let symbols = symbols_of(file, sections, table)?;
    let machine = u16_at(file, 18);
    function_in(
        file,
        sections,
        symbols,
        Place {
            machine,
            section,
            address,
        },
    )
}

/// What is found is a function symbol that covers the place, and none is nearer; and none is found only where
/// none covers it.
#[tactic(auto, using(crate::proofs::Nearest::finds_nearest))]
pub fn nearest_law()
    ensures { FindsNearest }
{}

// Kept: its parameters one by one, as C passes them.
/// The function symbol of a table that covers an address, of those in a section unless that is 0: one with a
/// size before one without, which covers up to its section's end; then the one that begins last; then the
/// shortest; then the first. Or a refusal by 101 to 108.
#[unsafe(no_mangle)]
pub extern "C" fn unwind_elf_symbol_at(
    file: &[u8],
    table: u64,
    section: u64,
    address: u64,
) -> ElfSymbol
    ensures value { result ≡ symbol_answer (function_at file.now table section address) }
    ensures inside { SymbolLiesIn (length file.now) result }
{
    match function_at(file, table, section, address) {
        Ok(symbol) => symbol,
        Err(refusal) => refused(refusal),
    }
}
