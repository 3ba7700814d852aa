use gds_library::Library;
use leaf_shapes::LeafPin;
use netlist::Deck;
use or_geom::Items;
use tech_rules::Tech;

/// A leaf cell: its sides, in nanometres, and the shapes of its pins, one for each demand of its role, in order.
#[derive(Debug, Drop)]
pub struct Leaf {
    pub width: i64,
    pub height: i64,
    pub pins: Items<LeafPin>,
}

/// A technology and its leaf cells: the library that draws them, their subcircuits, the bytes of these, and a leaf for
/// each role, in the order of roles.
#[derive(Debug, Drop)]
pub struct Kit {
    pub tech: Tech,
    pub lib: Library,
    pub deck: Deck,
    pub text: Items<u8>,
    pub leaves: Items<Leaf>,
}
