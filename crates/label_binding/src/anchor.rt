use or_geom::Point;

/// Where a label stands: the index of its layer in the technology's list, and its point in nanometres.
#[derive(Clone, Copy)]
pub struct Anchor {
    pub layer: u16,
    pub at: Point,
}
