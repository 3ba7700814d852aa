//! The tables of a technology: what its leaf cells do, and whether that is what each role asks for.
#![tactic(auto)]

mod compare;
mod fault;
mod laws;
mod points;
mod read;
mod row;
mod rows;

pub use fault::TableFault;
pub use laws::{table_faults_are_unique, table_faults_exclude_tables};
pub use read::{read_table, read_tables};
