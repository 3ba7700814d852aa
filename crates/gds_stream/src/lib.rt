//! Reads and writes GDSII stream files.
#![tactic(auto)]

mod bounds;
mod copy;
mod limits;
mod simple_ring;
mod turning;
mod writable;
mod write;

pub use copy::{structure_copy, structures_copy};
pub use gds_library::{
    Element, GdsFault, Library, Prop, Structure, faults_are_unique, faults_exclude_libraries,
    libraries_are_unique, libraries_are_writable, read_gds,
};
pub use writable::is_writable;
pub use write::write_gds;
