use or_geom::{Items, Name};

/// A pin of a leaf instance, or a port of the top, which has an empty path and an empty leaf.
#[derive(Debug, Drop)]
pub struct RowPin {
    /// The names of the instances from the top to the leaf, separated by `/`.
    pub path: Name,
    /// The name of the leaf's subcircuit.
    pub leaf: Name,
    pub pin: Name,
    /// The number of its net, from 0 by first appearance.
    pub net: u32,
}

/// The flat netlist of a subcircuit: the top's ports, and then the pins of each leaf instance.
#[derive(Debug, Drop)]
pub struct Rows {
    pub pins: Items<RowPin>,
}
