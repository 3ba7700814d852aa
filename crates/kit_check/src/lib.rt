//! Whether a kit is good: its rules, connections and leaf cells, and 540 small macros of it.
#![tactic(auto)]

mod digits;
mod first;
mod free_name;
mod judge;
mod maker;
mod quick;
mod quick_check;
mod quick_share;
mod rows;
mod share;
mod weak;
mod window;

pub use first::weakness;
pub use maker::Maker;
pub use quick_check::passes_quick_check;
pub use weak::Weak;
pub use window::Window;
