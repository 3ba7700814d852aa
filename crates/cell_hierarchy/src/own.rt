ghost use Rattle.std.specs.Prelude.{◌≡◌, ◌^◌, map, [], OnOk};
ghost use Rattle.std.specs.List.{AllByRecursion};
ghost use Rattle.or_geom.specs.Adds.{Adds};
ghost use Rattle.or_geom.specs.Distance.{IsReachable};
ghost use Rattle.or_geom.specs.Gathering.{SomeGives};
ghost use Rattle.or_geom.specs.Place.{IsNearPoint, placed};
ghost use Rattle.or_geom.specs.Reachable.{AreReachable};
ghost use Rattle.cell_hierarchy.specs.FlatSet.{IsMoved};
ghost use Rattle.cell_hierarchy.specs.Placed.{IsOfDrawing, LabelGives, PointGives};
ghost use Rattle.cell_hierarchy.specs.Plain.{plain_label};
ghost use Rattle.cell_hierarchy.specs.Drawings.{IsOwnDrawing};
ghost use Rattle.cell_hierarchy.specs.Things.{GatheredGrows};

use crate::drawing::OwnDrawing;
use crate::flat::Label;
use crate::gathered::Gathered;
use crate::placement::Placement;
use bumpalo::Bump;
use or_geom::{Memory, Orient, Place, Point, Shape};

/// The shape of a cell that stands at the place, in the top.
fn moved(place: Place, shape: Shape) -> Shape
    requires offset { IsNearPoint place.at }
    requires near { IsReachable shape.rect }
    ensures { IsMoved place shape result }
{
    Shape {
        layer: shape.layer,
        rect: place.apply(shape.rect),
    }
}

/// The point of a cell that stands at the place, in the top.
fn point_at(place: Place, p: Point) -> Point
    requires offset { IsNearPoint place.at }
    requires point { IsNearPoint p }
    ensures { result ≡ placed place p }
{
    place
        .then(Place {
            orient: Orient::R0,
            at: p,
        })
        .at
}

fn add_shapes(place: Place, shapes: &[Shape], out: &mut Vec<Shape, &Bump>) -> Result<(), Memory>
    requires offset { IsNearPoint place.at }
    requires near { AreReachable shapes.now }
    ensures { OnOk result (Adds out.old.items out.new.items (SomeGives (IsMoved place) shapes.now)) }
{
    for shape in shapes {
        out.push(moved(place, *shape))?;
    }
    Ok(())
}

fn add_labels<'b>(
    at: &Placement<'b>,
    labels: &[Label<'b>],
    out: &mut Vec<Label<'b>, &'b Bump>,
) -> Result<(), Memory>
    requires offset { IsNearPoint at.now.place.at }
    requires near { AllByRecursion (λ label. IsNearPoint label.at) labels.now }
    requires own { AllByRecursion (λ label. label.path.now ≡ []) labels.now }
    ensures { OnOk result (Adds (map plain_label out.old.items) (map plain_label out.new.items)
        (SomeGives (LabelGives at.now.path.now at.now.place) labels.now)) }
{
    for label in labels {
        out.push(Label {
            path: at.path,
            name: label.name,
            layer: label.layer,
            at: point_at(at.place, label.at),
        })?;
    }
    Ok(())
}

fn add_points(place: Place, points: &[Point], out: &mut Vec<Point>) -> Result<(), Memory>
    requires offset { IsNearPoint place.at }
    requires near { AllByRecursion IsNearPoint points.now }
    ensures { OnOk result (Adds out.old.items out.new.items (SomeGives (PointGives place) points.now)) }
{
    for p in points {
        out.push(point_at(place, *p))?;
    }
    Ok(())
}

/// Adds what a cell draws itself, where it stands.
pub fn add_own<'b>(
    at: &Placement<'b>,
    own: &OwnDrawing<'b>,
    out: &mut Gathered<'b>,
) -> Result<(), Memory>
    requires offset { IsNearPoint at.now.place.at }
    requires own { IsOwnDrawing own.now }
    ensures { OnOk result (GatheredGrows out.old out.new (IsOfDrawing own.now at.now)) }
{
    add_shapes(at.place, &own.shapes, &mut out.shapes)?;
    add_labels(at, &own.labels, &mut out.labels)?;
    add_points(at.place, &own.points, &mut out.points)
}
