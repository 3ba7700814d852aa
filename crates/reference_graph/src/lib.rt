//! Who refers to whom: what is reached along references, cycles, and orders in which each node comes after all that it
//! refers to.
#![tactic(auto)]

mod cycle;
mod height;
mod laws;
mod nodes;
mod reach;
mod search;

pub use cycle::{cyclic_nodes, least_cyclic};
pub use height::heights;
pub use laws::paths_are_short;
pub use reach::reached;
pub use search::order;
