ghost use Rattle.std.specs.Prelude.{◌≡◌, ◌↔◌, IsTrue};
ghost use Rattle.gds_records.specs.Values.{IsShort};
ghost use Rattle.or_geom.specs.Place.{low_corner, high_corner};
ghost use Rattle.cell_hierarchy.specs.Far.{IsFirstOf, first_of, upper_left, lower_right, IsFarAt, IsFarCorner};
ghost use Rattle.cell_hierarchy.specs.Far.{HasFarCorner, HasFarPoint, IsFarIn};

use or_geom::{Point, Rect, Shape};
use std::cmp::Ordering;

fn is_short(p: Point) -> bool
    ensures { IsTrue result ↔ IsShort p }
{
    if p.x < -2_147_483_648 || 2_147_483_647 < p.x {
        return false;
    }
    if p.y < -2_147_483_648 || 2_147_483_647 < p.y {
        return false;
    }
    true
}

/// The point, if it lies outside 32 bits.
fn far_at(p: Point) -> Option<Point>
    ensures { IsFirstOf (IsFarAt p) result }
{
    if is_short(p) {
        return None;
    }
    Some(p)
}

/// Of two points the one that comes first.
fn first_of(a: Option<Point>, b: Option<Point>) -> Option<Point>
    ensures { result ≡ first_of a b }
{
    let Some(p) = a else {
        return b;
    };
    let Some(q) = b else {
        return a;
    };
    match p.cmp(&q) {
        Ordering::Less => Some(p),
        Ordering::Equal => Some(p),
        Ordering::Greater => Some(q),
    }
}

fn lower_left(rect: Rect) -> Point
    ensures { result ≡ low_corner rect }
{
    Point {
        x: rect.x1,
        y: rect.y1,
    }
}

fn upper_left(rect: Rect) -> Point
    ensures { result ≡ upper_left rect }
{
    Point {
        x: rect.x1,
        y: rect.y2,
    }
}

fn lower_right(rect: Rect) -> Point
    ensures { result ≡ lower_right rect }
{
    Point {
        x: rect.x2,
        y: rect.y1,
    }
}

fn upper_right(rect: Rect) -> Point
    ensures { result ≡ high_corner rect }
{
    Point {
        x: rect.x2,
        y: rect.y2,
    }
}

/// The first of the shape's corners that lie outside 32 bits.
fn far_corner_of(shape: Shape) -> Option<Point>
    ensures { IsFirstOf (IsFarCorner shape) result }
{
    let rect = shape.rect;
    let left = first_of(far_at(lower_left(rect)), far_at(upper_left(rect)));
    let right = first_of(far_at(lower_right(rect)), far_at(upper_right(rect)));
    first_of(left, right)
}

fn far_corner(shapes: &[Shape]) -> Option<Point>
    ensures { IsFirstOf (HasFarCorner shapes.now) result }
{
    let mut first = None;
    for shape in shapes {
        first = first_of(first, far_corner_of(*shape));
    }
    first
}

fn far_of(points: &[Point]) -> Option<Point>
    ensures { IsFirstOf (HasFarPoint points.now) result }
{
    let mut first = None;
    for p in points {
        first = first_of(first, far_at(*p));
    }
    first
}

/// The first corner of a shape or point of a label, by x and then y, that lies outside 32 bits.
pub fn far_point(shapes: &[Shape], points: &[Point]) -> Option<Point>
    ensures { IsFirstOf (IsFarIn shapes.now points.now) result }
{
    first_of(far_corner(shapes), far_of(points))
}
