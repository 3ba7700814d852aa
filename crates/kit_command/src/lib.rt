//! What the command `kit` answers: the first weakness of a kit as a line, or no line where it is good.
#![tactic(auto)]

mod answer;
mod lines;

pub use answer::answer_kit;
