//! The bitcell array of a memory: its cells, its subcircuits and its edges.
#![tactic(auto)]

mod array_cells;
mod array_subckts;
mod columns;
mod part;
mod row_cell;
mod row_subckt;

pub use array_cells::pre_cell;
pub use array_subckts::{array_port_list, precharge_port_list, precharge_subckt};
pub use part::{add_cells, add_subckts, build};
