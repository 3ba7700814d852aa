ghost use Rattle.std.specs.Option.{option_map};
ghost use Rattle.std.specs.Prelude.{◌≡◌, IfOk, IfSome};
ghost use Rattle.gds_records.specs.Values.{first_point_of, point_of, points_from, IsShort};

use or_geom::{Memory, Point};
use std::alloc::Global;

/// The first point of some data, and what follows it.
#[tactic(auto, unfolding(crate::specs::Values::first_point_of))]
pub fn first_point(content: &[u8]) -> Option<(Point, &[u8])>
    ensures value { option_map (λ p. (p.0, p.1.now)) result ≡ first_point_of content.now }
    ensures short { IfSome result (λ p. IsShort p.0) }
{
    let [a, b, c, d, e, f, g, h, rest @ ..] = content else {
        return None;
    };
    let x = i64::from(i32::from_be_bytes([*a, *b, *c, *d]));
    let y = i64::from(i32::from_be_bytes([*e, *f, *g, *h]));
    Some((Point { x, y }, rest))
}

/// The points that some data holds, of eight bytes each.
pub fn points_in(alloc: Global, content: &[u8]) -> Result<Option<Vec<Point>>, Memory>
    ensures { IfOk result (λ points. option_map (λ v. v.items) points ≡ points_from content.now) }
{
    let mut points = Vec::with_capacity(alloc, content.len() / 8)?;
    let mut rest = content;
    while let Some((point, after)) = first_point(rest) {
        points.push(point)?;
        rest = after;
    }
    if rest.is_empty() {
        Ok(Some(points))
    } else {
        Ok(None)
    }
}

/// The only point of some data.
pub fn point_in(content: &[u8]) -> Option<Point>
    ensures { result ≡ point_of content.now }
{
    let [a, b, c, d, e, f, g, h] = content else {
        return None;
    };
    let x = i64::from(i32::from_be_bytes([*a, *b, *c, *d]));
    let y = i64::from(i32::from_be_bytes([*e, *f, *g, *h]));
    Some(Point { x, y })
}
