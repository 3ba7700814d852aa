//! What the parts of a memory have in common: how one is added, and what its edges are.
#![tactic(auto)]

mod edge;
mod part;
mod pins;
mod side;

pub use edge::{edge_at, sorted_edges};
pub use part::add_part;
pub use pins::{edges_of, side_edges};
pub use side::PartSide;
