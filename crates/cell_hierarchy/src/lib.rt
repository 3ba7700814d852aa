//! Flattening: the shapes and labels of a structure and of all structures below it.
#![tactic(auto)]

mod arena;
mod arithmetic;
mod below;
mod convert;
mod count;
mod counts;
mod drawing;
mod far;
mod fault;
mod flat;
mod flattening;
mod gathered;
mod grid;
mod laws;
mod order;
mod own;
mod parts;
mod placement;
mod references;
mod sorted;
mod sorter;
mod top;
mod tree;
mod walk;

pub use fault::FlattenFault;
pub use flat::{Flat, Label, flat_is_shared};
pub use flattening::{flatten, flatten_by, flatten_shapes, flatten_shapes_by};
pub use laws::{
    flat_lists_are_few, flat_lists_are_unique, flat_lists_have_flat_shapes, flat_shapes_are_images,
    flat_shapes_are_unique, flat_texts_are_ascii, flatten_faults_are_unique,
    flatten_faults_exclude_lists, flatten_faults_exclude_shapes,
};
pub use sorter::{OneThread, Sorter};
