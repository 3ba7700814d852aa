//! The row decoder of a memory: the gates of its column choices and predecode lines, and the taps of its rows.
#![tactic(auto)]

mod decoder;
mod gate;
mod lines;
mod rows;

pub use decoder::gates;
pub use gate::{LogicGate, add_gate};
pub use lines::{LineChoice, Lines, add_lines, gate_role};
pub use rows::taps;
