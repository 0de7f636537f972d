// Addresses looked up, and the rules of all registers.
ghost use Rattle.std.specs.Prelude.{◌≡◌, length};
ghost use Rattle.lookup.specs.Entries.{entries_of};
ghost use Rattle.lookup.specs.Registers.{all_rules_at, rules_after};

use lookup::{AllRules, Entries};
use reads::Located;

/// The first record whose function holds `pc`, and its header: 11, 61; 62 where no record holds it; 63.
#[unsafe(no_mangle)]
pub extern "C" fn unwind_entries_of(
    section: &[u8],
    relocations: &[u64],
    kind: u64,
    word: u64,
    address: u64,
    pc: u64,
) -> Entries
    ensures { result ≡ entries_of section.now relocations.now kind word address pc }
{
    lookup::unwind_entries_of(section, relocations, kind, word, address, pc)
}

/// The rules of registers 0, 1, .. at offset p, from what unwind_locate or unwind_locate_at answered: two
/// numbers a register, its rule and the rule's offset or register, as many as the lent list has room for.
#[unsafe(no_mangle)]
pub extern "C" fn unwind_all_rules_at(
    section: &[u8],
    located: Located,
    p: u64,
    rules: &mut [u64],
) -> AllRules
    ensures answer { result ≡ all_rules_at section.now located p (length rules.old) }
    ensures list_after { rules.new ≡ rules_after section.now located p rules.old }
{
    lookup::unwind_all_rules_at(section, located, p, rules)
}
