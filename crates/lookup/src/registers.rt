// The rules of all registers at a place.
ghost use Rattle.std.specs.Prelude.{◌≡◌, [], ◌∷◌, length, Ok};
ghost use Rattle.reads.specs.Places.{rules_of};
ghost use Rattle.lookup.specs.Registers.{rule_part, registers_in, filled, all_rules_as, all_rules_at, rules_after};

use crate::AllRules;
use format::Rules;
use reader::location;
use reads::Located;

// Two numbers a register: its rule, and the rule's offset or register.
const STRIDE: usize = 2;

// A register has 16 bits.
const REGISTERS: usize = 65536;

// As many as a list has room for.
#[tactic(auto, unfolding(crate::specs::Registers::registers_in))]
fn registers_in(rules: &[u64]) -> usize
    ensures { result ≡ registers_in (length rules.now) }
{
    (rules.len() / STRIDE).min(REGISTERS)
}

// The two numbers of one register's rule.
fn rule_at(section: &[u8], located: Located, q: u16, p: u64) -> (u64, u64)
    ensures { result.0 ∷ result.1 ∷ [] ≡ rule_part (rules_of section.now located q p) }
{
    let read = unwind::numbers_of(reads::rules_of(section, located, q, p), true);
    (read.rule, read.rule_value)
}

// Stores the rules of as many registers as there is room for: a run over the operations for each.
fn fill(section: &[u8], located: Located, p: u64, rules: &mut [u64])
    ensures { rules.new ≡ filled section.now located p rules.old }
{
    for q in 0..registers_in(rules) {
        let (rule, value) = rule_at(section, located, q as u16, p);
        rules[STRIDE * q] = rule;
        rules[STRIDE * q + 1] = value;
    }
}

// The CFA rule and the signing state, as one register's rules have them.
fn told(first: Rules, shortest: bool, registers: u64) -> AllRules
    ensures { result ≡ all_rules_as (Ok first) shortest registers }
{
    let read = unwind::numbers_of(Ok(first), shortest);
    AllRules {
        number: 0,
        frame: read.frame,
        frame_register: read.frame_register,
        frame_offset: read.frame_offset,
        signing: read.signing,
        shortest: read.shortest,
        registers,
    }
}

// The rules of registers 0, 1, .. at offset p, in a lent list.
#[tactic(auto, unfolding(crate::specs::Registers::all_rules_at, crate::specs::Registers::rules_after, crate::specs::Registers::all_rules_as, crate::specs::Registers::where_read))]
pub fn all_rules_at(section: &[u8], located: Located, p: u64, rules: &mut [u64]) -> AllRules
    ensures answer { result ≡ all_rules_at section.now located p (length rules.old) }
    ensures list_after { rules.new ≡ rules_after section.now located p rules.old }
{
    let first = match reads::rules_of(section, located, 0, p) {
        Ok(first) => first,
        Err(number) => {
            return AllRules {
                number,
                ..AllRules::default()
            };
        }
    };
    let shortest = reader::shortest_at(section, location::Located::from(located), p);
    fill(section, located, p, rules);
    told(first, shortest, registers_in(rules) as u64)
}
