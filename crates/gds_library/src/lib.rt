//! What a GDSII stream file holds: libraries of structures, read from bytes.
#![tactic(auto)]

mod array;
mod boundary;
mod fault;
mod file;
mod item;
mod label;
mod lattice;
mod laws;
mod library;
mod limits;
mod names;
mod path;
mod property;
mod read;
mod reference;
mod structure;
mod transform;
mod values;

pub use fault::GdsFault;
pub use laws::{
    faults_are_unique, faults_exclude_libraries, libraries_are_unique, libraries_are_writable,
};
pub use library::{Element, Library, Prop, Structure};
pub use limits::MIRRORED;
pub use read::read_gds;
