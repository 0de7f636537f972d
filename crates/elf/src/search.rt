//! Searches by number.

ghost use Rattle.elf.specs.Searches.{FindsFirst};

/// The search by number finds the first one that passes a test, and none only where none does.
#[tactic(auto, using(crate::proofs::Searches::finds_first))]
pub fn search_law()
    ensures { FindsFirst }
{}
