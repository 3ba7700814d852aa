ghost use Rattle.std.specs.Prelude.{◌≡◌, ◌↔◌, IsTrue};

use or_geom::Place;

/// Which reference of a structure: the index of its element, and its column and row where that is an array.
#[derive(Clone, Copy, Debug, PartialEq, Eq)]
pub struct ReferenceStep {
    pub element: usize,
    pub column: u16,
    pub row: u16,
}

/// Where a cell stands below the top: its index in the list of cells, its place in the top's coordinates, the
/// references that lead to it, and those that lead to the leaf cell in which it stands, if it stands in one.
#[derive(Clone, Copy)]
pub struct Stand<'b> {
    pub cell: usize,
    pub place: Place,
    pub steps: &'b [ReferenceStep],
    pub instance: Option<&'b [ReferenceStep]>,
}

/// Whether the lists of references are the same.
pub fn are_same(a: &[ReferenceStep], b: &[ReferenceStep]) -> bool
    ensures { IsTrue result ↔ (a.now ≡ b.now) }
{
    a == b
}
