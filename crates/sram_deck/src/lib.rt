//! The subcircuits that a memory is written as.
#![tactic(auto)]

mod laws;

pub use laws::{fixed_sample_agrees, sample_agrees};
