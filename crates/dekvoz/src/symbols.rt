// Symbols and relocations of ELF files.
ghost use Rattle.std.specs.Prelude.{◌≡◌, length};
ghost use Rattle.elf_symbols.specs.Functions.{function_at};
ghost use Rattle.elf_symbols.specs.Relocations.{relocation_at, relocation_answer};
ghost use Rattle.elf_symbols.specs.Symbols.{symbol_at, symbol_answer, SymbolLiesIn};

use elf_symbols::{ElfRelocation, ElfSymbol};

/// The symbol at an index of a section, or a refusal by 101 to 108.
#[unsafe(no_mangle)]
pub extern "C" fn unwind_elf_symbol(file: &[u8], section: u64, index: u64) -> ElfSymbol
    ensures value { result ≡ symbol_answer (symbol_at file.now section index) }
    ensures inside { SymbolLiesIn (length file.now) result }
{
    elf_symbols::unwind_elf_symbol(file, section, index)
}

/// The function symbol of a table that covers an address, of those in a section unless that is 0: one with a
/// size before one without, which covers up to its section's end; then the one that begins last; then the
/// shortest; then the first. Or a refusal by 101 to 108.
#[unsafe(no_mangle)]
pub extern "C" fn unwind_elf_symbol_at(
    file: &[u8],
    table: u64,
    section: u64,
    address: u64,
) -> ElfSymbol
    ensures value { result ≡ symbol_answer (function_at file.now table section address) }
    ensures inside { SymbolLiesIn (length file.now) result }
{
    elf_symbols::unwind_elf_symbol_at(file, table, section, address)
}

/// The relocation at an index of a section, or a refusal by 101 to 103 or 105 to 108.
#[unsafe(no_mangle)]
pub extern "C" fn unwind_elf_relocation(file: &[u8], section: u64, index: u64) -> ElfRelocation
    ensures { result ≡ relocation_answer (relocation_at file.now section index) }
{
    elf_symbols::unwind_elf_relocation(file, section, index)
}
