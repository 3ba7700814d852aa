use or_geom::Items;

/// A structure of a list from the bottom up. `structure` is its index in the library's list. `height` is at most 32,
/// and greater than those of the cells that it refers to. `targets` has, for each element that refers to a structure,
/// the index of that structure's cell in the list of cells; for other elements the number means nothing.
#[derive(Debug, Drop)]
pub struct Cell {
    pub structure: usize,
    pub height: u32,
    pub targets: Items<usize>,
}
