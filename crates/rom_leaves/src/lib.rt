//! The two leaf cells of a read-only memory: whether a kit has them, and whether they stand where a bitcell would.
#![tactic(auto)]

mod fixed;
mod laws;
mod read;
mod shared;
mod side;

pub use laws::{rom_leaves_are_leaves, rom_leaves_stand_as_bitcells};
pub use read::rom_leaves;
pub use side::SharedSide;
