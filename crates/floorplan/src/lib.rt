//! The floorplan of a memory, the joiners of its banks, and its supply wires; and the sides and places of its leaf
//! cells.
#![tactic(auto)]

mod counts;
mod joiners;
mod leaves;
mod numbers;
mod place;
mod shapes;
mod sides;
mod supplies;

pub use counts::{choices, pitches};
pub use joiners::{add_bank_joiners, columns_x};
pub use leaves::{leaf_height, leaf_width};
pub use numbers::{FloorplanNumbers, floorplan};
pub use place::{bare_cell, cell_at, column_x, leaf_at, row_place, unwired_cell, upright};
pub use sides::{LeafSides, sides_of, write_height};
pub use supplies::{add_ground_wires, add_power_wires};
