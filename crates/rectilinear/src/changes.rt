ghost use Rattle.std.specs.Prelude.{◌≡◌, IsPermutation, IfOk};
ghost use Rattle.rectilinear.specs.Changes.{changes_of, Climb, Passes};
ghost use Rattle.rectilinear.specs.Rows.{Rise};

use crate::RingSide;
use crate::ends::{End, toggle};
use crate::heights::Height;
use or_geom::Memory;
use std::alloc::Global;

/// A height at which a side begins or ends: from there upward one side more, or one less, passes the rows at `x`.
#[derive(Clone, Copy, Debug, PartialEq, Eq, PartialOrd, Ord)]
pub struct Change {
    pub y: i64,
    pub x: i64,
}

/// Where the sides begin and end, from the lowest height up.
pub fn changes_of(alloc: Global, sides: &[RingSide]) -> Result<Vec<Change>, Memory>
    ensures all { IfOk result (λ changes. IsPermutation (changes_of sides.now) changes.items) }
    ensures climb { IfOk result (λ changes. Climb changes.items) }
{
    let mut changes = Vec::new(alloc);
    for side in sides {
        changes.push(Change {
            y: side.a.y,
            x: side.a.x,
        })?;
        changes.push(Change {
            y: side.b.y,
            x: side.a.x,
        })?;
    }
    changes.sort_unstable();
    Ok(changes)
}

fn end_at(change: Change) -> End
    ensures { result.x ≡ change.x }
{
    End { x: change.x }
}

/// Takes the changes at this height, which stand first, into the ends of a row, and answers those that follow.
pub fn pass<'a>(
    changes: &'a [Change],
    height: Height,
    ends: &mut Vec<End>,
) -> Result<&'a [Change], Memory>
    requires { Rise ends.old.items }
    ensures { IfOk result (λ rest. Passes changes.now height.y ends.old.items rest.now ends.new.items) }
{
    let mut rest = changes;
    while let Some((change, others)) = rest.split_first() {
        if change.y != height.y {
            return Ok(rest);
        }
        toggle(ends, end_at(*change))?;
        rest = others;
    }
    Ok(rest)
}
