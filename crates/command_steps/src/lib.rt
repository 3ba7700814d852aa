//! The steps of a command on the outside: files are read and written, lines are printed, and each step says how it
//! ended.
#![tactic(auto)]

mod ending;
mod file;
mod print;
mod workers;
mod write;

pub use ending::{NO_MEMORY, finish, finish_unwritten, no_memory, refuse};
pub use file::{read_file, read_technology, read_technology_under, with_ending};
pub use workers::workers_in;
pub use write::{Unwritten, file_text, write_files};
