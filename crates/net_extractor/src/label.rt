use cell_hierarchy::Label;
use or_geom::Items;

/// A label of the flat layout and its net, if it binds a shape. The label stays where it lies: a layout has millions.
#[derive(Clone, Copy)]
pub struct NetLabel<'b> {
    pub label: &'b Label<'b>,
    /// The number of its net, from 0 by first appearance.
    pub net: Option<u32>,
}

/// The labels of a layout with their nets.
#[derive(Drop)]
pub struct Nets<'b> {
    pub labels: Items<NetLabel<'b>>,
}
