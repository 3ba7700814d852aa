//! The cell and the subcircuit of a bank, and its wires: the column channel, rails and taps, outputs, and joiners.
#![tactic(auto)]

mod cell;
mod channel;
mod edges;
mod leaves;
mod numbers;
mod outputs;
mod part;
mod subckt;
mod taps;
mod wires;

pub use cell::bank_cell;
pub use part::build;
pub use subckt::bank_subckt;
pub use wires::bank_wires;
