//! What is flat in a library stays so when the library is written.
#![tactic(auto)]

mod laws;

pub use laws::{turning_keeps_flat, writing_keeps_flat};
