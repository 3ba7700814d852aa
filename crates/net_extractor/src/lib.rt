//! Which shapes and labels of a layout are on one net, and what labels and a netlist differ in.
#![tactic(auto)]

mod comparison;
mod conflicts;
mod contacts;
mod difference;
mod key_places;
mod key_texts;
mod keys;
mod label;
mod laws;
mod links;
mod marks;
mod net_numbers;
mod nets;
mod numbering;
mod pins;
mod roots;
mod run;
mod sets;
mod strangers;
mod walk;

pub use comparison::first_difference;
pub use difference::{NetDiff, PinName};
pub use label::{NetLabel, Nets};
pub use laws::{differences_are_unique, differences_exclude_alike, nets_are_unique};
pub use links::{connects, is_conductor};
pub use net_numbers::shape_nets;
pub use nets::numbered_nets;
pub use numbering::{Numbering, no_numbers};
pub use pins::{PinNets, pin_nets};
pub use strangers::first_stranger;
