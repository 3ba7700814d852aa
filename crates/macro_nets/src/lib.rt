//! Laws of a macro's nets: each port of a leaf instance is joined with its net.
#![tactic(auto)]
