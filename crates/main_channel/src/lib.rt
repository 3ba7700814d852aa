//! The main channel of a macro: which nets meet it, and where, between its logic row and its banks.
#![tactic(auto)]

mod bottom;
mod channel;
mod gates;
mod leaves;
mod names;
mod pins;
mod top;

pub use channel::main_channel;
