//! Draws vertical rails, and the wires that tap them.
#![tactic(auto)]

mod draw;
mod highest;
mod shapes;

pub use draw::rails;
