//! Which shape of a layout a label binds.
#![tactic(auto)]

mod anchor;
mod bind;
mod places;

pub use anchor::Anchor;
pub use bind::bound_shape;
pub use places::bound_places;
