ghost use Rattle.std.specs.Prelude.{◌≡◌, ◌≢◌, ℕ, ◌+◌};
ghost use Rattle.or_geom.specs.declared.shape.Point.{Point};
ghost use Rattle.or_geom.specs.Distance.{IsReachable};
ghost use Rattle.or_geom.specs.Place.{IsNearPoint, IsWithin, quarter, reflected, turned, placed, low_corner};
ghost use Rattle.or_geom.specs.Place.{high_corner, IsBetween, IsImage};

use crate::shape::{Point, Rect};

/// How a cell is turned where it is placed: a counter-clockwise turn by 0, 90, 180 or 270 degrees, before which the MX
/// forms reflect about the x axis.
#[derive(Clone, Copy, Debug, PartialEq, Eq)]
pub enum Orient {
    R0,
    R90,
    R180,
    R270,
    MX,
    MX90,
    MX180,
    MX270,
}

/// Where and how a cell is placed: turned about its origin, which then lies at `at`, in nanometres.
#[derive(Clone, Copy, Debug, PartialEq, Eq)]
pub struct Place {
    pub orient: Orient,
    pub at: Point,
}

/// The point after a counter-clockwise quarter turn about the origin.
fn quarter_of(p: Point) -> Point
    requires { IsNearPoint p }
    ensures is { result ≡ quarter p }
    ensures near { IsNearPoint result }
{
    Point { x: -p.y, y: p.x }
}

/// The point reflected about the x axis.
fn reflected_of(p: Point) -> Point
    requires { IsNearPoint p }
    ensures is { result ≡ reflected p }
    ensures near { IsNearPoint result }
{
    Point { x: p.x, y: -p.y }
}

/// The point after the turn.
fn turned_by(orient: Orient, p: Point) -> Point
    requires { IsNearPoint p }
    ensures is { result ≡ turned orient p }
    ensures near { IsNearPoint result }
{
    match orient {
        Orient::R0 => p,
        Orient::R90 => quarter_of(p),
        Orient::R180 => quarter_of(quarter_of(p)),
        Orient::R270 => quarter_of(quarter_of(quarter_of(p))),
        Orient::MX => reflected_of(p),
        Orient::MX90 => quarter_of(reflected_of(p)),
        Orient::MX180 => quarter_of(quarter_of(reflected_of(p))),
        Orient::MX270 => quarter_of(quarter_of(quarter_of(reflected_of(p)))),
    }
}

/// The turn that is this one and then a quarter turn.
fn quarter_after(orient: Orient) -> Orient
    ensures { (p : Point) → turned result p ≡ quarter (turned orient p) }
{
    match orient {
        Orient::R0 => Orient::R90,
        Orient::R90 => Orient::R180,
        Orient::R180 => Orient::R270,
        Orient::R270 => Orient::R0,
        Orient::MX => Orient::MX90,
        Orient::MX90 => Orient::MX180,
        Orient::MX180 => Orient::MX270,
        Orient::MX270 => Orient::MX,
    }
}

/// The turn that is this one and then a reflection about the x axis.
fn reflected_after(orient: Orient) -> Orient
    ensures { (p : Point) → turned result p ≡ reflected (turned orient p) }
{
    match orient {
        Orient::R0 => Orient::MX,
        Orient::R90 => Orient::MX270,
        Orient::R180 => Orient::MX180,
        Orient::R270 => Orient::MX90,
        Orient::MX => Orient::R0,
        Orient::MX90 => Orient::R270,
        Orient::MX180 => Orient::R180,
        Orient::MX270 => Orient::R90,
    }
}

/// The turn that is `inner` and then `outer`.
fn turn_after(outer: Orient, inner: Orient) -> Orient
    ensures { (p : Point) → turned result p ≡ turned outer (turned inner p) }
{
    match outer {
        Orient::R0 => inner,
        Orient::R90 => quarter_after(inner),
        Orient::R180 => quarter_after(quarter_after(inner)),
        Orient::R270 => quarter_after(quarter_after(quarter_after(inner))),
        Orient::MX => reflected_after(inner),
        Orient::MX90 => quarter_after(reflected_after(inner)),
        Orient::MX180 => quarter_after(quarter_after(reflected_after(inner))),
        Orient::MX270 => quarter_after(quarter_after(quarter_after(reflected_after(inner)))),
    }
}

/// Where a point of the cell lies.
fn point_at(place: Place, p: Point) -> Point
    requires offset { IsNearPoint place.at }
    requires point { IsNearPoint p }
    ensures { result ≡ placed place p }
{
    let turned = turned_by(place.orient, p);
    Point {
        x: turned.x + place.at.x,
        y: turned.y + place.at.y,
    }
}

fn low_corner_of(r: Rect) -> Point
    requires { IsReachable r }
    ensures is { result ≡ low_corner r }
    ensures near { IsNearPoint result }
{
    Point { x: r.x1, y: r.y1 }
}

fn high_corner_of(r: Rect) -> Point
    requires { IsReachable r }
    ensures is { result ≡ high_corner r }
    ensures near { IsNearPoint result }
{
    Point { x: r.x2, y: r.y2 }
}

/// The rectangle with these two opposite corners.
fn box_between(a: Point, b: Point) -> Rect
    requires in_x { a.x ≢ b.x }
    requires in_y { a.y ≢ b.y }
    ensures { IsBetween a b result }
{
    if a.x < b.x {
        if a.y < b.y {
            return Rect {
                x1: a.x,
                y1: a.y,
                x2: b.x,
                y2: b.y,
            };
        }
        return Rect {
            x1: a.x,
            y1: b.y,
            x2: b.x,
            y2: a.y,
        };
    }
    if a.y < b.y {
        return Rect {
            x1: b.x,
            y1: a.y,
            x2: a.x,
            y2: b.y,
        };
    }
    Rect {
        x1: b.x,
        y1: b.y,
        x2: a.x,
        y2: a.y,
    }
}

impl Place {
    /// The rectangle, turned and then moved. Coordinates are within 2^40.
    pub fn apply(&self, r: Rect) -> Rect
        requires offset { IsNearPoint self.now.at }
        requires rect { IsReachable r }
        ensures { IsImage (placed self.now) r result }
    {
        let place = *self;
        box_between(
            point_at(place, low_corner_of(r)),
            point_at(place, high_corner_of(r)),
        )
    }

    /// The place that is `inner` and then this one, as for a cell in a cell. Coordinates are within 2^40.
    pub fn then(&self, inner: Place) -> Place
        requires offset { IsNearPoint self.now.at }
        requires inner { IsNearPoint inner.at }
        ensures applied { (p : Point) → placed result p ≡ placed self.now (placed inner p) }
        ensures bound { (m n : ℕ) → IsWithin m self.now.at → IsWithin n inner.at → IsWithin (m + n) result.at }
    {
        let place = *self;
        Place {
            orient: turn_after(place.orient, inner.orient),
            at: point_at(place, inner.at),
        }
    }
}
