//! Shapes by place: which shapes of a layer lie near an area.
#![tactic(auto)]

mod bins;
mod clear;
mod cover;
mod curve;
mod filled;
mod forest;
mod layers;
mod node;
mod order;
mod placed;
mod query;
mod runs;
mod tree;
mod walk;

pub use bins::{Bins, bins_are_shared, index, index_by};
pub use clear::ClearBox;
pub use forest::{Forest, NodeRange, nodes_of};
pub use node::Node;
pub use order::near_order;
pub use placed::{Extent, Placed};
pub use query::{Query, meet, overlap};
pub use walk::{add_of_leaf, is_wanted};
