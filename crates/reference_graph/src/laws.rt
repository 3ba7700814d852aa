ghost use Rattle.reference_graph.specs.BottomUp.{AcyclicPathsAreShort, OrdersAreLong};

/// A law for proofs: where no node that a start reaches reaches itself, each path from the start has fewer references
/// than there are nodes; and fewer than an order of what the start reaches has nodes, which are at most all nodes.
pub fn paths_are_short()
    ensures acyclic { AcyclicPathsAreShort }
    ensures ordered { OrdersAreLong }
{}
