//! Cuts boxes by boxes into pieces inside and pieces outside.
#![tactic(auto)]

mod around;
mod common;
mod crossing;
mod cut;
mod edges;
mod merge;
mod pieces;
mod single;

pub use merge::merged;
pub use pieces::{Pieces, split};
pub use single::box_of;
