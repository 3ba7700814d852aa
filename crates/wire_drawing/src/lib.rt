//! What routers share: the cut between two metals, taps of rails, and numbers that are too near.
#![tactic(auto)]

mod route;

pub use route::{RouteFault, Tap, first_close, via};
