//! Compares the transistors that leaf cells draw with those of their subcircuits.
#![tactic(auto)]

mod compare;
mod difference;
mod entries;
mod fault;
mod joined;
mod laws;
mod lookup;
mod role;
mod roles;
mod sorted;
mod split;

pub use difference::DeviceDiff;
pub use fault::DeviceFault;
pub use laws::{
    device_answers_are_unique, device_faults_are_unique, device_faults_exclude_answers,
};
pub use roles::devices;
