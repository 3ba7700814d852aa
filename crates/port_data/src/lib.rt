//! The data of a bank: write and sense cells, multiplexers or ties, and the channel between them.
#![tactic(auto)]

mod bottom;
mod cell;
mod columns;
mod data;
mod exits;
mod laws;
mod leaves;
mod lines;
mod routing;
mod slices;
mod subckt;
mod top;

pub use cell::data_cell;
pub use data::{add_data, build};
pub use laws::built_excludes_refused;
pub use routing::channel;
pub use slices::refuse_narrow_slices;
pub use subckt::{data_port_list, data_subckt};
