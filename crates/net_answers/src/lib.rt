//! Laws of nets: labels have their nets, and are like the rows of a netlist or differ from them first in something.
#![tactic(auto)]

ghost use Rattle.net_answers.specs.NetAnswers.{AlikeOrDifferent, NetsAreThere};

/// Labels have a list of nets.
pub fn nets_are_there()
    ensures { NetsAreThere }
{}

/// Labels and rows are alike or have a first difference.
pub fn alike_or_different()
    ensures { AlikeOrDifferent }
{}
