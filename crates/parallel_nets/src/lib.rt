//! The nets of a layout, and what labels and a netlist differ in, by one worker or by several.
#![tactic(auto)]

mod comparison;
mod nets;

pub use comparison::compare_by;
pub use nets::extract_by;
