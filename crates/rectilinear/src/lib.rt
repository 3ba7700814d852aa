//! Rings of points whose sides are parallel to the axes: their corners, and which of them are simple.
#![tactic(auto)]

mod changes;
mod cutting;
mod dropping;
mod ends;
mod heights;
mod laws;
mod ring;
mod simple;

pub use cutting::slabs;
pub use dropping::{corners, goes_on};
pub use laws::{ring_is_closed, slabs_fill, slabs_stay_near};
pub use ring::{RingSide, sides};
pub use simple::{is_simple, is_straight, meet_as_neighbours};
