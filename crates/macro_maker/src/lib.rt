//! The maker of macros for checks of kits: it assembles them as a build does.
#![tactic(auto)]

mod assembler;

pub use assembler::Assembler;
