//! Laws of wires: a wire that touches an instance is seen in a small memory, with its net.
#![tactic(auto)]
