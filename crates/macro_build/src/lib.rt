//! Builds a macro: assembles it, checks its layout against the rules and its nets against the netlist, and makes its
//! views.
#![tactic(auto)]

mod builder;
mod built;
mod counts;
mod order;
mod rows;
mod sound;
mod views;

pub use builder::build;
pub use built::{BuildFault, Built};
pub use order::Order;
