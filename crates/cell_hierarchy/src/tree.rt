use crate::parts::CellPart;
use cell_chains::Cell;
use gds_library::Structure;
use tech_rules::Layer;

/// The cells that a top reaches, from the bottom up, each with what it draws itself. Layers are named for proofs alone.
#[derive(Clone, Copy)]
pub struct Tree<'a, 'b> {
    pub layers: &'a [Layer],
    pub structs: &'a [Structure],
    pub cells: &'a [Cell],
    pub parts: &'a [CellPart<'b>],
    pub keeps_labels: bool,
}
