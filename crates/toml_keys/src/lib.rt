//! Reads keys of a TOML document by kind, with the fault where what stands under one isn't what it has to be.
#![tactic(auto)]

mod document;
mod fault;
mod table;
mod unknown;

pub use document::document_from;
pub use fault::{KeyFault, KeyProblem};
pub use table::{KeyTable, in_range};
