//! The rules.

ghost use Rattle.std.specs.Prelude.{◌≡◌};
ghost use Rattle.cfi_rules.specs.Rules.{is_stated};

use cfi_operations::Block;

/// The rule of the canonical frame address.
#[derive(Clone, Copy, PartialEq, Eq, Debug, Default)]
pub enum CfaRule {
    /// None is given.
    #[default]
    Unset,
    /// A register plus an offset.
    Register(u16, i64),
    /// What an expression gives.
    Expression(Block),
}

/// The rule of a register: where the caller's value is.
#[derive(Clone, Copy, PartialEq, Eq, Debug, Default, Drop)]
pub enum Rule {
    #[default]
    Unstated,
    Undefined,
    SameValue,
    /// Saved at the CFA plus an offset.
    Offset(i64),
    /// The CFA plus an offset.
    ValOffset(i64),
    /// In another register.
    Register(u16),
    /// Saved at the address that an expression gives.
    Expression(Block),
    /// What an expression gives.
    ValExpression(Block),
}

impl Rule {
    /// Whether anything is said of the register.
    pub fn is_stated(self) -> bool
        ensures { result ≡ is_stated self }
    {
        !matches!(self, Rule::Unstated)
    }
}

/// What is said beside the registers: the rule of the CFA, and whether the return address is signed, and with
/// the address of the instruction.
#[derive(Clone, Copy, PartialEq, Eq, Debug, Default, Drop)]
pub struct Frame {
    pub cfa: CfaRule,
    pub signed: bool,
    pub with_pc: bool,
}

/// A line of the log: a state was stored, when this was said beside the registers; or a register had this
/// rule before it got another.
#[derive(Clone, Copy, Drop)]
pub enum Noted {
    Mark(Frame),
    Was(u16, Rule),
}
