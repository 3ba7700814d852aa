//! The nets of leaf cells by themselves: whether labels name the pins rightly, and which shapes are on no net of a pin.
#![tactic(auto)]

mod label;
mod leaf;
mod leaves;
mod loose;
mod numbers;
mod pin;
mod pins;

pub use leaves::{KitNets, LooseLeaf, kit_nets};
