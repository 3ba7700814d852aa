//! What a kit's rules and connections may say of wires, and how far its leaf cells can be felt.
#![tactic(auto)]

mod joints;
mod layout;
mod outlines;
mod reach;
mod rules;

pub use joints::first_wrong_joint;
pub use layout::{cell_of, leaf_layout};
pub use outlines::overhang;
pub use reach::{is_short_reach, reach_with};
pub use rules::first_wrong_rule;
