//! Laws of a macro's wires and labels: each wire and each of the macro's own ports is joined with its net.
#![tactic(auto)]
