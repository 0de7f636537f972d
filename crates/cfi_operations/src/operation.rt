//! An operation at a place.

ghost use Rattle.std.specs.Prelude.{◌≡◌, ◌+◌, ◌≤◌, ◌<◌, length, IfSome, IfOk};
ghost use Rattle.cfi_operations.specs.Operands.{Ahead};
ghost use Rattle.cfi_operations.specs.Operations.{bare, step_bytes, step_at, cfa_at, value_at};
ghost use Rattle.cfi_operations.specs.Operations.{of_register_at, args_size_at, with_operands_at};
ghost use Rattle.cfi_operations.specs.Operations.{set_location_at, packed_at, operation_at};

use crate::operands::{Block, expression, factored, negated, plain, register, signed};
use crate::products::scaled;
use cfi_entries::places::{field, uleb};
use cfi_entries::{Question, Refusal};
use cfi_pointers::{AddressSize, Bases, Encoding, pointer_at};

/// An operation. Offsets are in bytes, with the factors multiplied in.
#[derive(Clone, Copy, PartialEq, Eq, Debug)]
pub enum Operation {
    Nop,
    /// The row of an address starts.
    SetLocation(u64),
    /// The row of that many bytes further on starts.
    Advance(u64),
    DefCfa(u16, i64),
    DefCfaRegister(u16),
    DefCfaOffset(i64),
    DefCfaExpression(Block),
    Undefined(u16),
    SameValue(u16),
    /// Saved at the CFA plus an offset.
    Offset(u16, i64),
    /// The CFA plus an offset is the value.
    ValOffset(u16, i64),
    /// The second register holds the first one's value.
    Register(u16, u16),
    /// Saved at the address that an expression gives.
    Expression(u16, Block),
    /// The value is what an expression gives.
    ValExpression(u16, Block),
    Restore(u16),
    RememberState,
    RestoreState,
    /// AArch64: the other state of signing.
    NegateRaState,
    /// AArch64: the same, with the address of the instruction signed in.
    NegateRaStateWithPc,
    /// How many bytes of arguments are on the stack. It changes no rule.
    ArgsSize(u64),
}

/// An operation that was read, and the place behind it.
#[derive(Clone, Copy, PartialEq, Eq, Debug)]
pub struct Decoded {
    pub operation: Operation,
    pub next: usize,
}

/// What operands are counted in: the factors of the CIE, and what its pointers are.
#[derive(Clone, Copy, Debug)]
pub struct Units {
    pub code_factor: u64,
    pub data_factor: i64,
    pub pointers: Encoding,
    pub size: AddressSize,
    pub bases: Bases,
}

/// An operation that has no operand.
fn bare(code: u8) -> Option<Operation>
    ensures { result ≡ bare code }
{
    match code {
        0x00 => Some(Operation::Nop),
        0x0a => Some(Operation::RememberState),
        0x0b => Some(Operation::RestoreState),
        0x2c => Some(Operation::NegateRaStateWithPc),
        0x2d => Some(Operation::NegateRaState),
        _ => None,
    }
}

/// How many bytes the operand of a step has.
fn step_bytes(code: u8) -> Option<usize>
    ensures value { result ≡ step_bytes code }
    ensures few { IfSome result (λ n. (0 < n) × (n ≤ 8)) }
{
    match code {
        0x02 => Some(1),
        0x03 => Some(2),
        0x04 => Some(4),
        0x1d => Some(8),
        _ => None,
    }
}

/// A step whose operand has that many bytes.
fn step(s: &[u8], at: usize, n: usize, factor: u64) -> Option<Decoded>
    requires { (0 < n) × (n ≤ 8) }
    ensures value { result ≡ step_at factor n s.now at }
    ensures ahead { IfSome result (λ d. Ahead (length s.now) at d.next) }
{
    let (delta, next) = field(s, at, n)?;
    let bytes = scaled(delta, factor)?;
    Some(Decoded {
        operation: Operation::Advance(bytes),
        next,
    })
}

/// An operation on the rule of the CFA.
fn cfa(s: &[u8], at: usize, code: u8, factor: i64) -> Option<Decoded>
    ensures value { result ≡ cfa_at factor code s.now at }
    ensures ahead { IfSome result (λ d. Ahead (length s.now) at d.next) }
{
    let (operation, next) = match code {
        0x0c => {
            let (reg, past) = register(s, at)?;
            let (z, next) = plain(s, past)?;
            (Operation::DefCfa(reg, z), next)
        }
        0x0d => {
            let (reg, next) = register(s, at)?;
            (Operation::DefCfaRegister(reg), next)
        }
        0x0e => {
            let (z, next) = plain(s, at)?;
            (Operation::DefCfaOffset(z), next)
        }
        0x0f => {
            let (block, next) = expression(s, at)?;
            (Operation::DefCfaExpression(block), next)
        }
        0x12 => {
            let (reg, past) = register(s, at)?;
            let (z, next) = signed(s, past, factor)?;
            (Operation::DefCfa(reg, z), next)
        }
        0x13 => {
            let (z, next) = signed(s, at, factor)?;
            (Operation::DefCfaOffset(z), next)
        }
        _ => return None,
    };
    Some(Decoded { operation, next })
}

/// What is said of a register, behind its number.
fn value(s: &[u8], at: usize, code: u8, reg: u16, factor: i64) -> Option<Decoded>
    requires { at ≤ length s.now }
    ensures value { result ≡ value_at factor code reg s.now at }
    ensures ahead { IfSome result (λ d. (at ≤ d.next) × (d.next ≤ length s.now)) }
{
    let (operation, next) = match code {
        0x05 => {
            let (z, next) = factored(s, at, factor)?;
            (Operation::Offset(reg, z), next)
        }
        0x06 => (Operation::Restore(reg), at),
        0x07 => (Operation::Undefined(reg), at),
        0x08 => (Operation::SameValue(reg), at),
        0x09 => {
            let (other, next) = register(s, at)?;
            (Operation::Register(reg, other), next)
        }
        0x10 => {
            let (block, next) = expression(s, at)?;
            (Operation::Expression(reg, block), next)
        }
        0x11 => {
            let (z, next) = signed(s, at, factor)?;
            (Operation::Offset(reg, z), next)
        }
        0x14 => {
            let (z, next) = factored(s, at, factor)?;
            (Operation::ValOffset(reg, z), next)
        }
        0x15 => {
            let (z, next) = signed(s, at, factor)?;
            (Operation::ValOffset(reg, z), next)
        }
        0x16 => {
            let (block, next) = expression(s, at)?;
            (Operation::ValExpression(reg, block), next)
        }
        0x2f => {
            let (z, next) = negated(s, at, factor)?;
            (Operation::Offset(reg, z), next)
        }
        _ => return None,
    };
    Some(Decoded { operation, next })
}

/// An operation on the rule of a register.
fn of_register(s: &[u8], at: usize, code: u8, factor: i64) -> Option<Decoded>
    ensures value { result ≡ of_register_at factor code s.now at }
    ensures ahead { IfSome result (λ d. Ahead (length s.now) at d.next) }
{
    let (reg, behind) = register(s, at)?;
    value(s, behind, code, reg, factor)
}

/// The size of the arguments.
fn args_size(s: &[u8], at: usize) -> Option<Decoded>
    ensures value { result ≡ args_size_at s.now at }
    ensures ahead { IfSome result (λ d. Ahead (length s.now) at d.next) }
{
    let (n, next) = uleb(s, at)?;
    Some(Decoded {
        operation: Operation::ArgsSize(n),
        next,
    })
}

/// An operation by its code, behind it. Those of the CFA are 0x0c to 0x0f, 0x12 and 0x13.
#[tactic(auto, unfolding(crate::specs::Operations::with_operands_at))]
fn with_operands(s: &[u8], at: usize, code: u8, units: &Units) -> Option<Decoded>
    requires { at ≤ length s.now }
    ensures value { result ≡ with_operands_at units.now code s.now at }
    ensures ahead { IfSome result (λ d. (at ≤ d.next) × (d.next ≤ length s.now)) }
{
    if let Some(operation) = bare(code) {
        return Some(Decoded {
            operation,
            next: at,
        });
    }
    if let Some(n) = step_bytes(code) {
        return step(s, at, n, units.code_factor);
    }
    match code {
        0x0c..=0x0f => cfa(s, at, code, units.data_factor),
        0x12..=0x13 => cfa(s, at, code, units.data_factor),
        0x2e => args_size(s, at),
        _ => of_register(s, at, code, units.data_factor),
    }
}

/// The operation that sets an address. The operation stands at `place`.
#[tactic(auto, unfolding(crate::specs::Operations::set_location_at))]
fn set_location(s: &[u8], at: usize, place: usize, units: &Units) -> Result<Decoded, Refusal>
    requires { at ≤ length s.now }
    ensures value { result ≡ set_location_at units.now place s.now at }
    ensures ahead { IfOk result (λ d. Ahead (length s.now) at d.next) }
{
    match pointer_at(s, at, units.pointers, units.size, &units.bases) {
        Ok(pointer) => Ok(Decoded {
            operation: Operation::SetLocation(pointer.address),
            next: pointer.next,
        }),
        Err(refusal) => if refusal.question == Question::Base {
            Err(Refusal::new(Question::Base, place))
        } else {
            Err(Refusal::new(Question::Operations, place))
        },
    }
}

/// An operation whose register or step stands in its code, which is at least 0x40.
#[tactic(auto, unfolding(crate::specs::Operations::packed_at))]
fn packed(s: &[u8], at: usize, code: u8, units: &Units) -> Option<Decoded>
    requires low { 64 ≤ code }
    requires inside { at ≤ length s.now }
    ensures value { result ≡ packed_at units.now code s.now at }
    ensures ahead { IfSome result (λ d. (at ≤ d.next) × (d.next ≤ length s.now)) }
{
    if code < 0x80 {
        let bytes = scaled((code - 0x40) as u64, units.code_factor)?;
        return Some(Decoded {
            operation: Operation::Advance(bytes),
            next: at,
        });
    }
    if code < 0xc0 {
        let (z, next) = factored(s, at, units.data_factor)?;
        return Some(Decoded {
            operation: Operation::Offset((code - 0x80) as u16, z),
            next,
        });
    }
    Some(Decoded {
        operation: Operation::Restore((code - 0xc0) as u16),
        next: at,
    })
}

/// The operation at a place. Question 66: the bytes end there, or they hold no operation whose numbers 64
/// bits hold. 94: the base that an address is relative to is not known.
#[tactic(auto, unfolding(crate::specs::Operations::operation_at))]
pub fn operation_at(s: &[u8], at: usize, units: &Units) -> Result<Decoded, Refusal>
    ensures value { result ≡ operation_at units.now s.now at }
    ensures ahead { IfOk result (λ d. Ahead (length s.now) at d.next) }
{
    if s.len() <= at {
        return Err(Refusal::new(Question::Operations, at));
    }
    let code = s[at];
    if code == 0x01 {
        return set_location(s, at + 1, at, units);
    }
    let read = if code < 0x40 {
        with_operands(s, at + 1, code, units)
    } else {
        packed(s, at + 1, code, units)
    };
    match read {
        Some(decoded) => Ok(decoded),
        None => Err(Refusal::new(Question::Operations, at)),
    }
}
