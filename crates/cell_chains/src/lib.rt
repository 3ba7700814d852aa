//! Chains of references: which structures a top reaches, in which order, and the names of their instances.
#![tactic(auto)]

mod cell;
mod fault;
mod hierarchy;
mod instance;
mod listing;
mod name_order;
mod names;
mod nodes;
mod target;
mod unknown;

pub use cell::Cell;
pub use fault::ChainFault;
pub use hierarchy::cells_below;
pub use instance::{array_name, reference_name};
pub use name_order::{NamedElement, by_name, numbers_below};
