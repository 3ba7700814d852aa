ghost use Rattle.std.specs.Prelude.{◌≡◌};

use crate::changes::Change;

/// The height of a corner or a row.
#[derive(Clone, Copy)]
pub struct Height {
    pub y: i64,
}

/// The height of a change.
pub fn height_of(change: Change) -> Height
    ensures { result.y ≡ change.y }
{
    Height { y: change.y }
}
