ghost use Rattle.std.specs.Prelude.{◌≤◌, ◌<◌, length};
ghost use Rattle.shape_bins.specs.Nodes.{IsNodeOver};
ghost use Rattle.shape_bins.specs.Forest.{IsForest, IsListedAt, IsRangeOf};

use crate::node::Node;
use or_geom::Shape;

/// Shapes with a tree over those of each layer.
#[derive(Clone, Copy)]
pub struct Forest<'b> {
    pub shapes: &'b [Shape],
    /// The places of all shapes: layer by layer, and near shapes one after another.
    pub places: &'b [u32],
    /// The nodes of the trees.
    pub nodes: &'b [Node],
    /// Where among these the nodes of each layer stand, up to the greatest layer that there is.
    pub ranges: &'b [NodeRange],
}

/// From one node up to another.
#[derive(Clone, Copy)]
pub struct NodeRange {
    pub first: usize,
    pub end: usize,
}

/// Of a layer that has no shapes.
pub const NO_NODES: NodeRange = NodeRange { first: 0, end: 0 };

/// Where the nodes of the layer stand. A walk for shapes of the layer needs to look at no others.
#[inline(always)]
pub fn nodes_of(forest: Forest<'_>, layer: u16) -> NodeRange
    requires { IsForest forest }
    ensures { IsRangeOf forest.entry.shapes.now (length forest.entry.shapes.now) forest.entry.places.now
        forest.entry.nodes.now layer result }
{
    let at = usize::from(layer);
    if at < forest.ranges.len() {
        return forest.ranges[at];
    }
    NO_NODES
}

/// A shape and its place.
#[derive(Clone, Copy)]
pub struct IndexedShape {
    pub place: usize,
    pub shape: Shape,
}

/// The shape whose place stands at the position, which is one of the node's.
#[inline(always)]
pub fn placed_at(forest: Forest<'_>, _node: Node, at: usize) -> IndexedShape
    requires over { IsNodeOver forest.shapes.now forest.places.now _node }
    requires from { _node.first ≤ at }
    requires to { at < _node.end }
    ensures { IsListedAt forest.entry.shapes.now forest.entry.places.now _node.hull.layer at result }
{
    let place = forest.places[at] as usize;
    IndexedShape {
        place,
        shape: forest.shapes[place],
    }
}
