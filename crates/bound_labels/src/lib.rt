//! Laws of labels: that in a memory whose labels and rows don't differ, those of a leaf instance's pins bind shapes of
//! their own nets.
#![tactic(auto)]
