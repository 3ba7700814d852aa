//! What a comparison of transistors counts: those of a subcircuit's lines, and the least that two lists don't have
//! equally often.
#![tactic(auto)]

mod entry;
mod lines;
mod order;
mod uneven;
mod words;

pub use entry::{DeviceEntry, entry_of};
pub use lines::{LineFault, line_entries};
pub use uneven::{Uneven, least_uneven};
