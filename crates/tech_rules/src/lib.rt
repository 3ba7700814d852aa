//! Reads a technology file: its layers, design rules, connections, wire sizes, leaf cells and kinds of transistors.
#![tactic(auto)]

mod connects;
mod devices;
mod entries;
mod fault;
mod layers;
mod names;
mod read;
mod roles;
mod rules;
mod tech;
mod wire_rules;
mod wires;

pub use fault::TechFault;
pub use read::read_tech;
pub use tech::{Connect, Device, Layer, RoleName, RoleRows, Rule, Tech, Wire};
pub use wire_rules::margin;
