//! Reads and writes SPICE subcircuits.
#![tactic(auto)]

mod fault;
mod laws;
mod line;
mod line_writer;
mod logical;
mod name_set;
mod read;
mod reading;
mod source;
mod statement;
mod subcircuit;
mod words;
mod writable;
mod write;

pub use fault::SpiceFault;
pub use laws::{
    appended_is_read, decks_are_lowered, decks_are_writable, subckt_names_are_readable,
};
pub use read::read_spice;
pub use writable::are_writable;
pub use write::write_spice;
