//! A demonstration kit, and a configuration for it, by a number: technology, leaf cells as GDSII and as SPICE.
#![tactic(auto)]

mod configuration;
mod drawing;
mod files;
mod layer;
mod layout;
mod lines;
mod subcircuits;
mod technology;

pub use files::{DemoFiles, demo};
