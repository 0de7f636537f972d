// The run of the operations of a header and a record: questions 66 to 69 of the reader, which rucc-asm/src/unwind.rs of tamnd/rucc does not have.
ghost use Rattle.std.specs.Prelude.{◌≡◌, false, T};
ghost use Rattle.format.specs.Coded.{numbered};
ghost use Rattle.format.specs.Rules.{answer};
ghost use Rattle.reader.specs.Finds.{in_section, found, run_both};
ghost use Rattle.reader.specs.OneRegister.{start, set_cfa, set_rule, register_rule, restored, remember, recall, negated, act, perform};
ghost use Rattle.reader.specs.States.{run_of, Acts, Performs};

use crate::location::Located;
use crate::operation::Operations;
pub use crate::state::State;
use format::{CfaRule, Operation, Question, Row, Rule, Rules};

// ---- the state

// The state in front of a header's operations.
#[tactic(auto, unfolding(crate::specs::States::run_of, crate::specs::OneRegister::start))]
pub fn start() -> State
    ensures { run_of result ≡ start }
{
    State {
        rules: Rules::default(),
        depth: 0,
        stored: [Rules::default(); 16],
    }
}

// ---- what a row does

// Another CFA rule.
#[tactic(auto, unfolding(crate::specs::States::run_of, crate::specs::OneRegister::set_cfa))]
fn set_cfa(s: &mut State, cfa: CfaRule)
    ensures { run_of s.new ≡ set_cfa cfa (run_of s.old) }
{
    s.rules.cfa = cfa;
}

// Another rule of register reg, which counts where it is the followed one.
fn set_rule(s: &mut State, q: u16, reg: u16, rule: Rule)
    ensures { run_of s.new ≡ set_rule q reg rule (run_of s.old) }
{
    if q == reg {
        s.rules.rule = rule;
    }
}

// Question 69: the register and the offset of a CFA rule that is changed.
fn register_rule(cfa: CfaRule) -> Result<(u16, i64), Question>
    ensures { numbered result ≡ register_rule cfa }
{
    match cfa {
        CfaRule::Register(reg, z) => Ok((reg, z)),
        CfaRule::Unset => Err(Question::FrameRule),
    }
}

// Question 67: no Restore in a header.
fn restore(s: &mut State, q: u16, reg: u16, initial: Option<Rule>) -> Result<(), Question>
    ensures { Acts result (run_of s.new) (restored q reg initial (run_of s.old)) }
{
    let rule = initial.ok_or(Question::States)?;
    set_rule(s, q, reg, rule);
    Ok(())
}

// Question 68: at most 16 stored.
fn remember(s: &mut State) -> Result<(), Question>
    ensures { Acts result (run_of s.new) (remember (run_of s.old)) }
{
    let depth = s.depth;
    if 16 <= depth {
        return Err(Question::StatesRoom);
    }
    s.stored[depth] = s.rules;
    s.depth = depth + 1;
    Ok(())
}

// Question 67: stored rules for a RestoreState.
fn recall(s: &mut State) -> Result<(), Question>
    ensures { Acts result (run_of s.new) (recall (run_of s.old).stored (run_of s.old)) }
{
    let last = s.depth.checked_sub(1).ok_or(Question::States)?;
    let rules = s.stored[last];
    s.rules = rules;
    s.depth = last;
    Ok(())
}

// The other signing state.
#[tactic(auto, unfolding(crate::specs::States::run_of, crate::specs::OneRegister::negated))]
fn negate(s: &mut State)
    ensures { run_of s.new ≡ negated (run_of s.old) }
{
    s.rules.signing = !s.rules.signing;
}

// A row, or the question that it is refused by; `initial` is the followed register's rule after the header. Out of line, so that
// `perform` is small enough to stand in the loops of the readers.
#[inline(never)]
pub fn act(s: &mut State, q: u16, initial: Option<Rule>, row: Row) -> Result<(), Question>
    ensures { Acts result (run_of s.new) (act q initial row (run_of s.old)) }
{
    match row {
        Row::DefCfa(reg, z) => set_cfa(s, CfaRule::Register(reg, z)),
        Row::DefCfaOffset(z) => {
            let (reg, _) = register_rule(s.rules.cfa)?;
            set_cfa(s, CfaRule::Register(reg, z));
        }
        Row::DefCfaRegister(reg) => {
            let (_, z) = register_rule(s.rules.cfa)?;
            set_cfa(s, CfaRule::Register(reg, z));
        }
        Row::Offset(reg, z) => set_rule(s, q, reg, Rule::Saved(z)),
        Row::Restore(reg) => return restore(s, q, reg, initial),
        Row::Undefined(reg) => set_rule(s, q, reg, Rule::Undefined),
        Row::RememberState => return remember(s),
        Row::RestoreState => return recall(s),
        Row::NegateRaState => negate(s),
        Row::SameValue(reg) => set_rule(s, q, reg, Rule::SameValue),
        Row::InRegister(reg, other) => set_rule(s, q, reg, Rule::InRegister(other)),
    }
    Ok(())
}

// An operation, or the question that it is refused by: a row is done, and a step is handed on. Question 66: no step in a header.
#[inline(always)]
pub fn perform(
    s: &mut State,
    q: u16,
    initial: Option<Rule>,
    op: Operation,
) -> Result<Option<u64>, Question>
    ensures { Performs result (run_of s.new) (perform q initial op (run_of s.old)) }
{
    match op {
        Operation::Nop => Ok(None),
        Operation::Step(n) => {
            if initial.is_none() {
                return Err(Question::Operations);
            }
            Ok(Some(n))
        }
        Operation::Does(row) => {
            act(s, q, initial, row)?;
            Ok(None)
        }
    }
}

// ---- the operations of two entries

// Kept: a loop of 18 lines like that of `listing::run::fill`. Both have their operations from the iterator and `perform`. One loop for both would take
// two closures, for a step and for a refusal, that store lines there and nothing here, and its contract would say what the calls of both left behind.
// The header's operations and then the record's, for register q, until a step would pass p.
pub fn run(s: &[u8], l: &Located, p: u64, q: u16) -> Result<Rules, Question>
    requires { T (in_section s.now l.now) }
    ensures { numbered result ≡ answer q (run_both l.now.word p (found s.now l.now)) }
{
    let mut state = start();
    // The followed register's rule after the header, which a header's operations do not have.
    let mut initial = None;
    'entries: for span in l.operations() {
        let from = span.at;
        let to = span.end;
        let mut loc = 0;
        'operations: for read in Operations::new(&s[from..to], l.word) {
            let Some((op, _)) = read else {
                return Err(Question::Operations);
            };
            let Some(n) = perform(&mut state, q, initial, op)? else {
                continue 'operations;
            };
            if p - loc < n {
                continue 'entries;
            }
            loc += n;
        }
        initial = Some(state.rules.rule);
    }
    Ok(state.rules)
}
