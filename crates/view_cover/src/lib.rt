//! A law of the abstract view: each shape of a macro's layout on a metal lies in the boxes of its LEF.
#![tactic(auto)]

mod laws;

pub use laws::lef_covers_layout;
