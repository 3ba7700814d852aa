use crate::name_set::NameSet;
use netlist::Subckt;
use or_geom::Items;

/// A subcircuit whose `.ENDS` is still to come.
#[derive(Drop)]
pub struct OpenSubckt {
    /// The number of the line with its `.SUBCKT`.
    pub line: u64,
    pub subckt: Subckt,
    /// The names of its instances, so that a name that stands twice is found at once.
    pub instances: NameSet,
}

/// What the lines so far gave.
#[derive(Drop)]
pub struct Reading {
    pub done: Items<Subckt>,
    /// The names of the subcircuits that are done.
    pub names: NameSet,
    pub current: Option<OpenSubckt>,
}
