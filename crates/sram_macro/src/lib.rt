//! Assembles the macro: its library, its subcircuits and its abstract view.
#![tactic(auto)]

mod assembly;
mod deck;
mod extents;
mod laws;
mod layout;
mod library;
mod names;
mod signals;
mod top_cell;
mod top_subckt;
mod view;

pub use assembly::{Macro, assemble, assemble_with};
pub use laws::macros_are_stated;
