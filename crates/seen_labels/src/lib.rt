//! A law of labels: those of leaf instances' pins stay on their nets in a memory whose parts are seen in a small memory
//! where they do.
#![tactic(auto)]

ghost use Rattle.seen_labels.specs.Stay.{SeenLabelsStay};

/// Labels of pins stay on their nets in a memory, where they do in the small memory in which its parts are seen.
pub fn seen_labels_stay()
    ensures { SeenLabelsStay }
{}
