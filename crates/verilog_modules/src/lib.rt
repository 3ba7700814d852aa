//! Modules of the part of Verilog that a memory's view uses, and the texts that spell them.
#![tactic(auto)]

mod laws;

pub use laws::{edges_end, modules_start, one_tree};
