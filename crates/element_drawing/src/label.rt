use or_geom::Point;

/// A label among a cell's own elements: its text, the index of its layer in the technology's list, and its point in
/// nanometres.
#[derive(Clone, Copy, Debug)]
pub struct ElementLabel<'a> {
    pub name: &'a [u8],
    pub layer: u16,
    pub at: Point,
}
