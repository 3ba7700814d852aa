//! What a netlist is: subcircuits with instances of one another, and the flat rows of the pins of one of them; and two
//! decks copied into one.
#![tactic(auto)]

mod copies;
mod deck;
mod rows;

pub use copies::joined_decks;
pub use deck::{Deck, Instance, Subckt};
pub use rows::{RowPin, Rows};
