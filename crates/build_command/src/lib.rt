//! The commands `build`, `demo` and `rom`: a configuration, a kit of leaf cells and, for a read-only memory, its words
//! are read, a memory is built of them, and its views are written.
#![tactic(auto)]

mod demo_files;
mod design;
mod laws;
mod made;
mod rom_design;
mod run;
mod success;
mod words;

pub use design::read_kit_under;
pub use laws::{
    demo_files_hold_bytes, designs_are_one, rom_works_are_one, runs_end_as_work, works_are_one,
};
pub use run::make;
pub use words::{BuildKind, Making, RomFiles};
