ghost use Rattle.std.specs.Prelude.{◌≡◌, ◌<◌, Some, length, slice_get};
ghost use Rattle.rom_leaves.specs.Shared.{measure_of, shared_sides};

use SharedSide::*;
use leaf_tables::{Leaf, PinEdge, end_of_pin};

/// What a cell with a fixed bit has in common with the bitcell: its height, its width, and where its pins begin.
#[derive(Clone, Copy, Debug)]
pub enum SharedSide {
    Height,
    Width,
    LeftOfBl,
    LeftOfBr,
    LowOfWl,
}

/// The cells' bits and what they have in common with the bitcell, in the order in which it is looked at.
pub fn shared_sides() -> &'static [(bool, SharedSide)]
    ensures { result.now ≡ shared_sides }
{
    &[
        (false, Height),
        (true, Height),
        (false, Width),
        (true, Width),
        (false, LeftOfBl),
        (false, LeftOfBr),
        (false, LowOfWl),
        (true, LeftOfBl),
        (true, LeftOfBr),
        (true, LowOfWl),
    ]
}

/// What stands at an index.
pub fn side_at(all: &[(bool, SharedSide)], index: usize) -> (bool, SharedSide)
    requires { index < length all.now }
    ensures { slice_get all.now index ≡ Some result }
{
    all[index]
}

/// The side of a leaf, in nanometres; none where it has no such pin.
pub fn measure_of(leaf: &Leaf, side: SharedSide) -> Option<i64>
    ensures { result ≡ measure_of side leaf.now }
{
    match side {
        SharedSide::Height => Some(leaf.height),
        SharedSide::Width => Some(leaf.width),
        SharedSide::LeftOfBl => end_of_pin(leaf, "bl", PinEdge::Left),
        SharedSide::LeftOfBr => end_of_pin(leaf, "br", PinEdge::Left),
        SharedSide::LowOfWl => end_of_pin(leaf, "wl", PinEdge::Low),
    }
}
