//! The roles of a memory's leaf cells, fourteen of a read-write memory and two more of a read-only one: their names and
//! ports, and what a cell of each role does.
#![tactic(auto)]

mod laws;
mod leaf_role;
mod role;
mod table;

pub use laws::{leaf_tables_agree, tables_agree};
pub use leaf_role::LeafRole;
pub use role::Role;
pub use table::{leaf_table_rows, table_rows};
