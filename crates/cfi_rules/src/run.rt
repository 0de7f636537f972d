//! What an operation does to the rules.
ghost use Rattle.std.specs.Prelude.{◌≡◌, ◌<◌, length, reverse, set, get_or, IfSome};
ghost use Rattle.cfi_rules.specs.declared.rule.Rule.TheVariants.{Unstated};
ghost use Rattle.cfi_rules.specs.Registers.{start, total, back, seat, set_at, set_rule, restore, remember};
ghost use Rattle.cfi_rules.specs.Registers.{recall, body_of};
ghost use Rattle.cfi_rules.specs.Actions.{with_cfa, with_register, with_offset, with_signing, with_args, act};
ghost use Rattle.cfi_rules.specs.Log.{stored_of, Undone};
ghost use Rattle.cfi_rules.specs.States.{run_of, Acts};

use crate::log::Log;
use crate::rule::{CfaRule, Frame, Noted, Rule};
use crate::state::State;
use cfi_entries::Question;
use cfi_operations::Operation;

/// The state in front of a CIE's operations, which follows 128 registers from `first` on.
pub fn start(first: u16) -> State
    ensures { run_of result ≡ start first }
{
    State {
        first,
        rules: [Rule::Unstated; 128],
        initial: [Rule::Unstated; 128],
        header: true,
        frame: Frame {
            cfa: CfaRule::Unset,
            signed: false,
            with_pc: false,
        },
        args: 0,
        log: Log::new(),
        depth: 0,
    }
}

/// The CIE's operations are done: the rules that hold are the initial ones.
pub fn enter_body(s: &mut State)
    ensures { run_of s.new ≡ body_of (run_of s.old) }
{
    s.initial = s.rules;
    s.header = false;
}

/// Where a register stands among those that are followed.
fn seat(first: u16, register: u16) -> Option<usize>
    ensures value { result ≡ seat first register }
    ensures below { IfSome result (λ at. at < 128) }
{
    if register < first {
        return None;
    }
    let at = register - first;
    if at < 128 { Some(at as usize) } else { None }
}

/// The rule that stands there, and past the end none.
fn rule_at(rules: &[Rule; 128], at: usize) -> Rule
    ensures { result ≡ get_or rules.now at Unstated }
{
    if at < 128 { rules[at] } else { Rule::Unstated }
}

/// Another rule of a register that is followed.
fn set_at(s: &mut State, at: usize, rule: Rule) -> Result<(), Question>
    requires { at < 128 }
    ensures { Acts result (run_of s.new) (set_at at rule (run_of s.old)) }
{
    if s.depth == 0 {
        s.rules[at] = rule;
        return Ok(());
    }
    let was = rule_at(&s.rules, at);
    let Ok(()) = s.log.push(Noted::Was(at as u16, was)) else {
        return Err(Question::StatesRoom);
    };
    s.rules[at] = rule;
    Ok(())
}

/// Another rule of a register, where it is followed.
#[tactic(auto, unfolding(crate::specs::Registers::set_rule))]
fn set_rule(s: &mut State, register: u16, rule: Rule) -> Result<(), Question>
    ensures { Acts result (run_of s.new) (set_rule register rule (run_of s.old)) }
{
    match seat(s.first, register) {
        Some(at) => set_at(s, at, rule),
        None => Ok(()),
    }
}

/// A register's initial rule.
#[tactic(auto, unfolding(crate::specs::Registers::restore))]
fn restore(s: &mut State, register: u16) -> Result<(), Question>
    ensures { Acts result (run_of s.new) (restore register (run_of s.old)) }
{
    if s.header {
        return Err(Question::States);
    }
    match seat(s.first, register) {
        Some(at) => {
            let rule = rule_at(&s.initial, at);
            set_at(s, at, rule)
        }
        None => Ok(()),
    }
}

/// The rules are stored.
fn remember(s: &mut State) -> Result<(), Question>
    ensures { Acts result (run_of s.new) (remember (run_of s.old)) }
{
    if s.depth >= 16 {
        return Err(Question::StatesRoom);
    }
    let Ok(()) = s.log.push(Noted::Mark(s.frame)) else {
        return Err(Question::StatesRoom);
    };
    s.depth += 1;
    Ok(())
}

/// Past the end nothing is put.
fn put(rules: &mut [Rule; 128], at: u16, rule: Rule)
    ensures { rules.new ≡ set rules.old at rule }
{
    let at = at as usize;
    if at < 128 {
        rules[at] = rule;
    }
}

/// Takes changes back up to the last mark, and gives what was said beside the registers there.
fn undo(rules: &mut [Rule; 128], log: &mut Log) -> Option<Frame>
    requires { total (stored_of rules.old (reverse log.old)) ≡ length log.old }
    ensures { Undone result rules.new log.new (back (stored_of rules.old (reverse log.old))) }
{
    while let Some(entry) = log.pop() {
        match entry {
            Noted::Mark(frame) => return Some(frame),
            Noted::Was(at, rule) => put(rules, at, rule),
        }
    }
    None
}

/// The rules that were stored last come back.
fn recall(s: &mut State) -> Result<(), Question>
    ensures { Acts result (run_of s.new) (recall (run_of s.old)) }
{
    let Some(frame) = undo(&mut s.rules, &mut s.log) else {
        return Err(Question::States);
    };
    s.frame = frame;
    s.depth -= 1;
    Ok(())
}

/// Another rule of the CFA.
fn set_cfa(s: &mut State, cfa: CfaRule)
    ensures { run_of s.new ≡ with_cfa cfa (run_of s.old) }
{
    s.frame.cfa = cfa;
}

/// Another register in the rule of the CFA.
fn set_cfa_register(s: &mut State, register: u16) -> Result<(), Question>
    ensures { Acts result (run_of s.new) (with_register register (run_of s.old).frame.cfa (run_of s.old)) }
{
    match s.frame.cfa {
        CfaRule::Register(_, offset) => {
            set_cfa(s, CfaRule::Register(register, offset));
            Ok(())
        }
        _ => Err(Question::FrameRule),
    }
}

/// Another offset in the rule of the CFA.
fn set_cfa_offset(s: &mut State, offset: i64) -> Result<(), Question>
    ensures { Acts result (run_of s.new) (with_offset offset (run_of s.old).frame.cfa (run_of s.old)) }
{
    match s.frame.cfa {
        CfaRule::Register(register, _) => {
            set_cfa(s, CfaRule::Register(register, offset));
            Ok(())
        }
        _ => Err(Question::FrameRule),
    }
}

/// The other state of signing.
fn negate(s: &mut State, with_pc: bool)
    ensures { run_of s.new ≡ with_signing with_pc (run_of s.old) }
{
    s.frame.signed = !s.frame.signed;
    s.frame.with_pc = with_pc;
}

/// What was said last of the arguments.
fn set_args(s: &mut State, n: u64)
    ensures { run_of s.new ≡ with_args n (run_of s.old) }
{
    s.args = n;
}

/// An operation on the rules, or the question that it is refused by: 67, 68 or 69. A step changes none.
#[tactic(auto, unfolding(crate::specs::Actions::act))]
pub fn act(s: &mut State, operation: Operation) -> Result<(), Question>
    ensures { Acts result (run_of s.new) (act operation (run_of s.old)) }
{
    match operation {
        Operation::Nop | Operation::SetLocation(_) | Operation::Advance(_) => {}
        Operation::DefCfa(register, offset) => set_cfa(s, CfaRule::Register(register, offset)),
        Operation::DefCfaRegister(register) => return set_cfa_register(s, register),
        Operation::DefCfaOffset(offset) => return set_cfa_offset(s, offset),
        Operation::DefCfaExpression(block) => set_cfa(s, CfaRule::Expression(block)),
        Operation::Undefined(register) => return set_rule(s, register, Rule::Undefined),
        Operation::SameValue(register) => return set_rule(s, register, Rule::SameValue),
        Operation::Offset(register, offset) => return set_rule(s, register, Rule::Offset(offset)),
        Operation::ValOffset(register, offset) => return set_rule(
            s,
            register,
            Rule::ValOffset(offset),
        ),
        Operation::Register(register, other) => return set_rule(s, register, Rule::Register(other)),
        Operation::Expression(register, block) => return set_rule(
            s,
            register,
            Rule::Expression(block),
        ),
        Operation::ValExpression(register, block) => return set_rule(
            s,
            register,
            Rule::ValExpression(block),
        ),
        Operation::Restore(register) => return restore(s, register),
        Operation::RememberState => return remember(s),
        Operation::RestoreState => return recall(s),
        Operation::NegateRaState => negate(s, false),
        Operation::NegateRaStateWithPc => {
            let with_pc = !s.frame.signed;
            negate(s, with_pc);
        }
        Operation::ArgsSize(n) => set_args(s, n),
    }
    Ok(())
}
