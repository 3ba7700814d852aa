ghost use Rattle.std.specs.Prelude.{◌∷◌, [], OnOk};
ghost use Rattle.box_pieces.specs.Cells.{AddsCells, IsBetweenSides, IsCellAround, IsIntersection};
ghost use Rattle.box_pieces.specs.Added.{AreAdded};

use crate::common::common;
use crate::pieces::Pieces;
use or_geom::{Memory, Rect};

/// Adds the rectangle with these sides, where they are positive.
fn add_box(x1: i64, y1: i64, x2: i64, y2: i64, out: &mut Vec<Rect>) -> Result<(), Memory>
    ensures { OnOk result (AddsCells out.old.items out.new.items (IsBetweenSides x1 y1 x2 y2)) }
{
    if x1 < x2 && y1 < y2 {
        out.push(Rect { x1, y1, x2, y2 })?;
    }
    Ok(())
}

/// Adds what lies in the rectangle around a part of it: below, above, left and right.
fn add_around(_by: Rect, rect: Rect, part: Rect, out: &mut Vec<Rect>) -> Result<(), Memory>
    requires { IsIntersection rect _by part }
    ensures { OnOk result (AddsCells out.old.items out.new.items (IsCellAround rect part)) }
{
    add_box(rect.x1, rect.y1, rect.x2, part.y1, out)?;
    add_box(rect.x1, part.y2, rect.x2, rect.y2, out)?;
    add_box(rect.x1, part.y1, part.x1, part.y2, out)?;
    add_box(part.x2, part.y1, rect.x2, part.y2, out)
}

/// Adds the pieces into which one rectangle cuts another.
pub fn add_cut(rect: Rect, by: Rect, out: &mut Pieces) -> Result<(), Memory>
    ensures { OnOk result (AreAdded (rect ∷ []) (by ∷ []) out.old out.new) }
{
    let Some(part) = common(rect, by) else {
        return Ok(out.outside.push(rect)?);
    };
    out.inside.push(part)?;
    add_around(by, rect, part, &mut out.outside)
}
