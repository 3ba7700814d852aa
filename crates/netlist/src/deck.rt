use or_geom::{Items, Name};

/// The subcircuits of a SPICE text, in its order.
#[derive(Debug, Drop)]
pub struct Deck {
    pub subckts: Items<Subckt>,
    /// The number of bytes before the `.END` line, or of all bytes.
    pub used: u64,
}

/// A subcircuit: its ports, and what it is made of.
#[derive(Debug, Drop)]
pub struct Subckt {
    pub name: Name,
    pub ports: Items<Name>,
    pub instances: Items<Instance>,
    /// The other lines, as they stand.
    pub raw: Items<Name>,
}

/// An instance of a subcircuit, whose ports it joins with nodes in their order.
#[derive(Debug, Drop)]
pub struct Instance {
    pub name: Name,
    pub nodes: Items<Name>,
    /// The name of the subcircuit.
    pub of: Name,
}
