ghost use Rattle.std.specs.Prelude.{◌≡◌, slice_get};

use or_geom::Shape;

/// What breaks a rule: the rule's number, from 0, in the technology's list; the shape that breaks it; and for a space
/// rule the second shape, which is the later one in the order of shapes. Violations are ordered by these three.
#[derive(Clone, Copy, Debug, PartialEq, Eq, PartialOrd, Ord)]
pub struct Violation {
    pub rule: u32,
    pub first: Shape,
    pub second: Option<Shape>,
}

/// The first violation of a report, none exactly where the report is empty.
pub fn first_fault(list: &[Violation]) -> Option<Violation>
    ensures { result ≡ slice_get list.now 0 }
{
    list.first().copied()
}
