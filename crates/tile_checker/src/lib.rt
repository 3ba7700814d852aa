//! The report of the design rules over the shapes of a layout.
#![tactic(auto)]

mod candidates;
mod check;
mod clear;
mod earliest;
mod enclose;
mod extent;
mod first;
mod first_found;
mod first_in_tile;
mod first_share;
mod frame;
mod gate;
mod in_tile;
mod laws;
mod minimum;
mod notes;
mod owner;
mod share;
mod sides;
mod space;
mod strip;
mod tiles;
mod union;
mod violation;
mod width;

pub use check::check_all;
pub use first_found::first_violation;
pub use gate::{Gate, OpenGate};
pub use laws::{reports_are_there, reports_are_unique, width_of_unjoined_shapes};
pub use violation::{Violation, first_fault};
