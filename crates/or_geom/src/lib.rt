//! Points, rectangles and names: what every other crate of the compiler stands on.
#![tactic(auto)]

mod contact;
mod containing;
mod cover;
mod distance;
mod distinct;
mod gap;
mod items;
mod memory;
mod name;
mod one_list;
mod place;
mod shape;
mod span;

pub use contact::joined;
pub use containing::{around, holds};
pub use cover::covered;
pub use distance::dist2;
pub use distinct::sort_distinct;
pub use gap::gap_box;
pub use items::Items;
pub use memory::Memory;
pub use name::Name;
pub use one_list::sets_are_one_list;
pub use place::{Orient, Place};
pub use shape::{Point, Rect, Shape};
pub use span::Span;
