//! One pass over the operations of a CIE and of an FDE.
ghost use Rattle.std.specs.Prelude.{◌≡◌, ◌≤◌, ◌<◌, length};
ghost use Rattle.cfi_fields.specs.Fdes.{Holds};
ghost use Rattle.cfi_rules.specs.Registers.{start, body_of};
ghost use Rattle.cfi_rules.specs.Passes.{is_step, step_of, cie_run, fde_run, units_of, pass, rules_of};
ghost use Rattle.cfi_rules.specs.Passes.{rules_at};
ghost use Rattle.cfi_rules.specs.States.{run_of, Passes, Gives};

use crate::run::{act, enter_body, start};
use crate::state::State;
use cfi_entries::{Question, Refusal};
use cfi_fields::fde::encoding_of;
use cfi_fields::{Fde, fde_at};
use cfi_operations::{Operation, Units, operation_at};
use cfi_pointers::{AddressSize, Bases};

/// Whether an operation starts another row.
fn is_step(operation: Operation) -> bool
    ensures { result ≡ is_step operation }
{
    matches!(operation, Operation::Advance(_) | Operation::SetLocation(_))
}

/// Where an operation leads from a location, counted from the function's start: nowhere, or on. Question 66:
/// back, or past 64 bits.
pub fn step_of(function: u64, location: u64, operation: Operation) -> Result<Option<u64>, Question>
    ensures { result ≡ step_of function location operation }
{
    match operation {
        Operation::Advance(n) => match location.checked_add(n) {
            Some(next) => Ok(Some(next)),
            None => Err(Question::Operations),
        },
        Operation::SetLocation(address) => {
            if address < function {
                return Err(Question::Operations);
            }
            let next = address - function;
            if next < location {
                return Err(Question::Operations);
            }
            Ok(Some(next))
        }
        _ => Ok(None),
    }
}

/// The operations of a CIE, in the bytes up to their end. Question 66: none can be read, or it is a step.
#[tactic(auto, using(crate::proofs::PassLaws::cie_start, crate::proofs::PassLaws::cie_goes_on))]
fn run_cie(s: &mut State, bytes: &[u8], from: usize, units: &Units) -> Result<(), Refusal>
    requires { from ≤ length bytes.now }
    ensures { Passes result (run_of s.new) (cie_run units.now bytes.now from (run_of s.old)) }
{
    let mut at = from;
    while at < bytes.len() {
        match operation_at(bytes, at, units) {
            Ok(read) => {
                if is_step(read.operation) {
                    return Err(Refusal::new(Question::Operations, at));
                }
                match act(s, read.operation) {
                    Ok(()) => at = read.next,
                    Err(question) => return Err(Refusal::new(question, at)),
                }
            }
            Err(refusal) => return Err(refusal),
        }
    }
    Ok(())
}

/// The operations of an FDE, in the bytes up to their end, until a step passes the location that is asked of.
#[tactic(auto, using(crate::proofs::PassLaws::fde_laws))]
fn run_fde(
    s: &mut State,
    bytes: &[u8],
    from: usize,
    units: &Units,
    function: u64,
    asked: u64,
) -> Result<(), Refusal>
    requires { from ≤ length bytes.now }
    ensures { Passes result (run_of s.new) (fde_run units.now function asked bytes.now from (run_of s.old)) }
{
    let mut at = from;
    let mut location = 0u64;
    while at < bytes.len() {
        match operation_at(bytes, at, units) {
            Ok(read) => {
                match step_of(function, location, read.operation) {
                    Ok(Some(next)) => {
                        if asked < next {
                            return Ok(());
                        }
                        location = next;
                        at = read.next;
                    }
                    Ok(None) => match act(s, read.operation) {
                        Ok(()) => at = read.next,
                        Err(question) => return Err(Refusal::new(question, at)),
                    },
                    Err(question) => return Err(Refusal::new(question, at)),
                }
            }
            Err(refusal) => return Err(refusal),
        }
    }
    Ok(())
}

/// What the operands of a record's operations are counted in.
pub fn units_of(fde: &Fde, bases: &Bases) -> Units
    ensures { result ≡ units_of fde.now bases.now }
{
    Units {
        code_factor: fde.cie.code_factor,
        data_factor: fde.cie.data_factor,
        pointers: encoding_of(&fde.cie),
        size: fde.cie.size,
        bases: Bases {
            function: Some(fde.start),
            ..*bases
        },
    }
}

/// The operations of an FDE's CIE and then its own.
#[tactic(auto, unfolding(crate::specs::Passes::pass))]
fn pass(s: &mut State, section: &[u8], fde: &Fde, bases: &Bases, asked: u64) -> Result<(), Refusal>
    requires { Holds (length section.now) fde.now }
    ensures { Passes result (run_of s.new) (pass fde.now bases.now asked section.now (run_of s.old)) }
{
    let units = units_of(fde, bases);
    let header_end = fde.cie.end;
    match run_cie(s, &section[..header_end], fde.cie.operations, &units) {
        Ok(()) => {}
        Err(refusal) => return Err(refusal),
    }
    enter_body(s);
    let end = fde.end;
    run_fde(s, &section[..end], fde.operations, &units, fde.start, asked)
}

/// The rules of a record of a section at a location, counted from the function's start, of the 128 registers
/// from `first` on. Question 65: the function does not reach there.
#[tactic(auto, unfolding(crate::specs::Passes::rules_of))]
pub fn rules_of(
    section: &[u8],
    fde: &Fde,
    bases: &Bases,
    first: u16,
    asked: u64,
) -> Result<State, Refusal>
    requires { Holds (length section.now) fde.now }
    ensures { Gives result (rules_of fde.now bases.now first asked section.now) }
{
    if fde.size <= asked {
        return Err(Refusal::new(Question::Offset, fde.at));
    }
    let mut s = start(first);
    match pass(&mut s, section, fde, bases, asked) {
        Ok(()) => Ok(s),
        Err(refusal) => Err(refusal),
    }
}

/// The rules at a location of the record at a place of a section, counted from the function's start, of the
/// 128 registers from `first` on; for a target whose addresses have that size. Question 61: no entry fits the
/// rest of the section. 62: no FDE starts there. 63: it has no CIE. 64: a field of either. 65: the function
/// does not reach the location. 66: an operation of theirs up to there. 67: no state is stored, or a CIE
/// restores one. 68: more than 16 states are stored, or more than 400 and changes since. 69: no rule of a
/// register and an offset is there to change. 94: a base that a pointer is relative to.
#[tactic(auto, unfolding(crate::specs::Passes::rules_at))]
pub fn rules_at(
    section: &[u8],
    debug: bool,
    at: usize,
    size: AddressSize,
    bases: &Bases,
    first: u16,
    asked: u64,
) -> Result<State, Refusal>
    ensures { Gives result (rules_at debug size bases.now first asked section.now at) }
{
    match fde_at(section, debug, at, size, bases) {
        Ok(fde) => rules_of(section, &fde, bases, first, asked),
        Err(refusal) => Err(refusal),
    }
}
