//! A law of good kits: each window of a memory, a small memory in which leaf cells stand side by side as in the large
//! one, is assembled, breaks no rule, and is joined as its netlist says.
#![tactic(auto)]

ghost use Rattle.clean_windows.specs.Sound.{GoodKitsHaveCleanWindows};

/// For a good kit and a plan whose slices are wide enough, each small memory in which something stands as in the plan's
/// macro is assembled, and nothing is wrong with it.
pub fn good_kits_have_clean_windows()
    ensures { GoodKitsHaveCleanWindows }
{}
