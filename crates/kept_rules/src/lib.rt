//! Design rules of a good kit are kept by each memory, where the small memories break none.
#![tactic(auto)]

ghost use Rattle.kept_rules.specs.Kept.{ReportsAreEmpty};

/// A memory of which each small one breaks no rule breaks none, where the rules say of wires what they may.
pub fn reports_are_empty()
    ensures { ReportsAreEmpty }
{}
