//! Sorts of long lists by several threads.
#![tactic(auto)]

mod workers;

pub use workers::WorkerSorter;
