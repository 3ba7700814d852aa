//! Names and lists of ports of a memory's subcircuits, and the instances of its leaf cells.
#![tactic(auto)]

mod cell;
mod contents;
mod names;
mod numbers;
mod ports;

pub use cell::{
    cell_instance, cell_names, cell_of, fixed_cell_of, leaf_instance, part_name, subckt_of,
};
pub use contents::{Contents, bit_cell, row_kinds, row_name};
pub use names::{NameList, Spelling, spell};
pub use numbers::{enables_of, groups_of, lines_of, row_gate_role};
pub use ports::{sense_enable, word_line_enable};
