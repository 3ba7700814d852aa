//! The flat rows of the written subcircuits of a memory are those of its reference netlist.
#![tactic(auto)]

mod laws;

pub use laws::{
    cells_are_names, rows_equal_netlist, some_are_leaves_for, written_subckts_are_read,
    written_subckts_are_writable,
};
