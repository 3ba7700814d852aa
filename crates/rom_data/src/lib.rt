//! What a read-only macro holds: the words of a data file, and the Verilog module that has them.
#![tactic(auto)]

mod fault;
mod line;
mod verilog;
mod words;

pub use fault::RomFault;
pub use verilog::rom_verilog;
pub use words::rom_words;
