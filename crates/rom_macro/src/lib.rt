//! A read-only macro: the leaf cells that it needs, the words that it holds, its layout and netlist, and its Verilog
//! module.
#![tactic(auto)]

mod assembly;

pub use assembly::{RomMacro, rom_assemble};
pub use rom_data::{RomFault, rom_verilog, rom_words};
pub use rom_leaves::rom_leaves;
