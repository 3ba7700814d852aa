//! Tests that take a whole kit: the demonstration kit is good, as a maker builds it that gives up on large macros; and
//! a read-only macro over it.
#![tactic(auto)]

#[cfg(test)]
mod good;
#[cfg(test)]
mod rom;
mod short_maker;

pub use short_maker::ShortMaker;
