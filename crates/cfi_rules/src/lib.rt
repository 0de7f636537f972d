//! What a record says at a place: the rule of the CFA and the rules of 128 registers, in one pass over its
//! operations.
#![tactic(auto)]

pub mod log;
pub mod pass;
pub mod rule;
pub mod run;
pub mod state;

pub use pass::{rules_at, rules_of};
pub use rule::{CfaRule, Frame, Rule};
pub use state::State;
