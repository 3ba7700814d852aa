//! The Verilog text of a read-only memory answers each read with its word.
#![tactic(auto)]

mod laws;

pub use laws::{rom_texts_are_memories, rom_texts_spell, roms_start};
