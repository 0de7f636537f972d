// Exports for those who look addresses up (include/dekvoz.h): the record that holds an address with its
// header, and the rules of all registers at a place.
#![tactic(auto)]

ghost use Rattle.std.specs.Prelude.{◌≡◌, length};
ghost use Rattle.lookup.specs.Entries.{entries_of};
ghost use Rattle.lookup.specs.Registers.{all_rules_at, rules_after};

use format::Question;
use reads::Located;

pub mod holder;
pub mod registers;

/// What unwind_entries_of answers: the record's number and its place, and the place of its header. On a
/// refusal all but the question's number is 0.
#[repr(C)]
#[derive(Clone, Copy, Default)]
pub struct Entries {
    pub number: u64,
    pub k: u64,
    pub record: u64,
    pub header: u64,
}

/// What unwind_all_rules_at answers: the CFA rule, the signing state, whether the numbers that were read are
/// spelled shortest, and how many registers' rules are stored. On a refusal all but `number` is 0.
#[repr(C)]
#[derive(Clone, Copy, Default)]
pub struct AllRules {
    pub number: u64,
    pub frame: u64,
    pub frame_register: u64,
    pub frame_offset: u64,
    pub signing: u64,
    pub shortest: u64,
    pub registers: u64,
}

/// The first record whose function holds `pc`, and its header: 11, 61; 62 where no record holds it; 63.
#[unsafe(no_mangle)]
pub extern "C" fn unwind_entries_of(
    section: &[u8],
    relocations: &[u64],
    kind: u64,
    word: u64,
    address: u64,
    pc: u64,
) -> Entries
    ensures { result ≡ entries_of section.now relocations.now kind word address pc }
{
    let Some(section) = reader::section_of(section, relocations, kind, word) else {
        return Entries::from(Err(Question::Interface));
    };
    Entries::from(holder::holding(&section, address, pc))
}

/// The rules of registers 0, 1, .. at offset p, from what unwind_locate or unwind_locate_at answered: two
/// numbers a register, its rule and the rule's offset or register, as many as the lent list has room for.
#[unsafe(no_mangle)]
pub extern "C" fn unwind_all_rules_at(
    section: &[u8],
    located: Located,
    p: u64,
    rules: &mut [u64],
) -> AllRules
    ensures answer { result ≡ all_rules_at section.now located p (length rules.old) }
    ensures list_after { rules.new ≡ rules_after section.now located p rules.old }
{
    registers::all_rules_at(section, located, p, rules)
}
