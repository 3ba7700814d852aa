//! The Verilog text of a memory answers each list of commands as the array of words.
#![tactic(auto)]

mod laws;

pub use laws::{
    commands_step, memories_agree, memories_answer, memories_are_legal, memories_run,
    power_up_keeps, texts_are_memories, texts_spell,
};
