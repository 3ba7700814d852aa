//! Laws of labels: that in a macro those of a leaf instance's pins bind shapes of their own nets.
#![tactic(auto)]

ghost use Rattle.label_nets.specs.Anchored.{AnchoredLabelsStay};

/// Labels stay in a macro without net differences, if of each net some label binds a shape of the net.
pub fn anchored_labels_stay()
    ensures { AnchoredLabelsStay }
{}
