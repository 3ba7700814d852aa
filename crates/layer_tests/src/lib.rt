//! Tests of the library crates: worked examples, and the real file system and output.
#![tactic(auto)]

#[cfg(test)]
mod cells;
#[cfg(test)]
mod devices;
#[cfg(test)]
mod gds;
#[cfg(test)]
mod geometry;
#[cfg(test)]
mod host;
#[cfg(test)]
mod kits;
#[cfg(test)]
mod leaf_files;
#[cfg(test)]
mod parts;
#[cfg(test)]
mod plans;
#[cfg(test)]
mod rom;
#[cfg(test)]
mod routes;
#[cfg(test)]
mod spice;
#[cfg(test)]
mod tables;
#[cfg(test)]
mod views;
