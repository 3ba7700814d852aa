ghost use Rattle.std.specs.Prelude.{◌^◌, pos, OnOk, Contains};
ghost use Rattle.or_geom.specs.declared.shape.Shape.{Shape};
ghost use Rattle.or_geom.specs.Adds.{Adds};
ghost use Rattle.or_geom.specs.Gathering.{SomeGives};
ghost use Rattle.macro_layout.specs.Stated.{IsShifted};
ghost use Rattle.floorplan.specs.FloorplanNumbers.{IsUpTo};
ghost use Rattle.bank_layout.specs.Near.{AreCornersWithin};

use or_geom::{Memory, Rect, Shape};

/// The shape, so much further right.
fn moved(by: i64, shape: &Shape) -> Shape
    requires by { IsUpTo (2 ^ 24) by }
    requires near { AreCornersWithin (2 ^ 30) shape.now.rect }
    ensures { IsShifted by (pos 0) shape.now result }
{
    let rect = shape.rect;
    Shape {
        layer: shape.layer,
        rect: Rect {
            x1: rect.x1 + by,
            y1: rect.y1,
            x2: rect.x2 + by,
            y2: rect.y2,
        },
    }
}

/// Adds the shapes of a channel, so much further right.
pub fn add_moved(by: i64, channel: &[Shape], shapes: &mut Vec<Shape>) -> Result<(), Memory>
    requires by { IsUpTo (2 ^ 24) by }
    requires near { (s : Shape) → Contains channel.now s → AreCornersWithin (2 ^ 30) s.rect }
    ensures { OnOk result (Adds shapes.old.items shapes.new.items
        (SomeGives (λ from to. IsShifted by (pos 0) from to) channel.now)) }
{
    for shape in channel {
        shapes.push(moved(by, shape))?;
    }
    Ok(())
}
