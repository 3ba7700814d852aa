//! The reference netlist of a read-only memory answers every read with its word.
#![tactic(auto)]

mod laws;

pub use laws::{rom_example_answers, roms_hold_words};
