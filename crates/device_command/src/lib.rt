//! What the command `devices` answers: the first difference of transistors in leaf cells as a line, or why there is no
//! answer.
#![tactic(auto)]

mod answer;
mod lines;
mod refusals;

pub use answer::answer_devices;
