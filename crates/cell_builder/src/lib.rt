//! Cells that are built from instances, wires and labels, and the library that they make.
#![tactic(auto)]

mod cell;
mod cells;
mod copy;
mod element;
mod laws;
mod order;
mod structure;

pub use cell::{DrawnCell, PlacedInstance, PlacedLabel};
pub use cells::Cells;
pub use laws::{
    finished_cells_are_drawn, finished_is_writable, flat_cells, flat_labels_of_cells,
    items_compose, leaves_are_kept, names_resolve,
};
