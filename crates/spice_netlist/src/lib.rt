//! The flat rows of a netlist: the nets of the pins of all leaf instances below a top.
#![tactic(auto)]

mod cycle;
mod fault;
mod flat;
mod graph;
mod instance_path;
mod laws;
mod least;
mod level;
mod lower;
mod name_index;
mod number;
mod pins;
mod ports;
mod resolve;
mod resolved;
mod rows;
mod size;
mod table;
mod text;
mod unknown;
mod walk;

pub use fault::FlatFault;
pub use flat::flat_rows;
pub use laws::{
    flat_faults_are_unique, flat_faults_exclude_rows, keys_tell_nets, net_keys_are_faithful,
    rows_are_unique, walks_are_whole,
};
pub use netlist::{Deck, Instance, RowPin, Rows, Subckt};
pub use spice_text::{SpiceFault, are_writable, read_spice, write_spice};
