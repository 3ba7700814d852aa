//! A kit: a technology with its leaf cells, each drawn and wired as its role asks for.
#![tactic(auto)]

mod align;
mod alignment;
mod convert;
mod fault;
mod kit;
mod leaf;
mod lookup;
mod of_role;
mod part;
mod read;

pub use align::end_of_pin;
pub use alignment::PinEdge;
pub use cell_roles::{LeafRole, Role};
pub use fault::KitFault;
pub use kit::{Kit, Leaf};
pub use leaf::read_leaf;
pub use leaf_shapes::LeafPin;
pub use lookup::role_number;
pub use of_role::{leaf_of, wire_of};
pub use part::{Edge, Edges, PartFault};
pub use read::kit_of;
pub use role_tables::{TableFault, read_table, read_tables};
