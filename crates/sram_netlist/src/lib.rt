//! The reference netlist of a memory: its leaf instances, their roles and nets, and their names.
#![tactic(auto)]

mod laws;

pub use laws::{lists_agree, nets_named, texts_tell};
