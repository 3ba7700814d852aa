//! Configurations of memories, and the plan that follows from one.
#![tactic(auto)]

mod choose;
mod config;
mod fault;
mod keys;
mod keywords;
mod laws;
mod numbers;
mod read;
mod view;

pub use choose::plan;
pub use config::Config;
pub use fault::ConfigFault;
pub use laws::plans_are_one;
pub use numbers::{Plan, PlanFault, inputs_of, read_only};
pub use read::read_config;
pub use view::{Abstract, SignalPin};
