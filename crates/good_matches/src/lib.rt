//! A law of nets: for a good kit each macro's labels are joined as its netlist says.
#![tactic(auto)]

ghost use Rattle.good_matches.specs.Matches.{GoodKitsMatch};

/// Of each plan of a configuration, a good kit's macro has its labels joined exactly as its netlist says.
pub fn good_kits_match()
    ensures { GoodKitsMatch }
{}
