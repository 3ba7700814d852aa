//! The reference netlist of a memory is a memory: every run answers as an array of words.
#![tactic(auto)]

mod laws;

pub use laws::{
    addresses_split, commands_obey, examples_answer, numbers_agree, phases_agree, ports_fit,
    runs_answer, runs_answer_numbers, runs_exist, runs_obey,
};
