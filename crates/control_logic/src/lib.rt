//! The control logic of a memory: its logic row as a list of gates, and the cell, the subcircuit and the edges of that
//! row.
#![tactic(auto)]

mod cell;
mod control;
mod enables;
mod latches;
mod part;
mod row;
mod subckt;

pub use cell::logic_row_cell;
pub use part::build;
pub use row::{LogicRow, logic_row, row_width};
pub use subckt::{logic_port_list, logic_subckt};
