//! Whether a shape of a leaf cell that belongs to none of its pins touches a shape outside of its instance.
#![tactic(auto)]

mod cells;
mod contact;
mod levels;
mod marks;
mod places;
mod references;
mod stand;
mod touching;

pub use contact::has_loose_contact;
