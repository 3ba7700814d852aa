//! Laws of the wires of a small memory: where its pins, branches, bars and taps stand beside what stands for an
//! instance.
#![tactic(auto)]
