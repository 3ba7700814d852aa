ghost use Rattle.std.specs.Prelude.{◌≡◌, IfOk};
ghost use Rattle.std.specs.Option.{option_map};
ghost use Rattle.gds_records.specs.Bytes.{records_of, MatchesReader};
ghost use Rattle.gds_records.specs.Reading.{taken_at};
ghost use Rattle.gds_records.specs.declared.error.Demand.TheVariants as demand;
ghost use Rattle.rectilinear.proofs.SimpleTest.{simple_test};
ghost use Rattle.gds_library.specs.Values.{is_same_point};
ghost use Rattle.gds_library.specs.ReadElements.{is_closed, outline_in, outline_of, boundary_at};

use crate::library::Element;
use crate::property::{layers_from, properties_from};
use gds_records::code::*;
use gds_records::{Demand, RecordError, next, points_in, unmet};
use or_geom::{Items, Memory, Point};
use rectilinear::{corners, is_simple};
use std::alloc::Global;

fn is_same(p: Point, q: Point) -> bool
    ensures { result ≡ is_same_point p q }
{
    p.x == q.x && p.y == q.y
}

/// Whether the last point repeats the first.
fn ends_where_it_begins(points: &[Point]) -> bool
    ensures { result ≡ is_closed points.now }
{
    let Some((first, others)) = points.split_first() else {
        return false;
    };
    let mut last = *first;
    let mut rest = others;
    while let Some((next, after)) = rest.split_first() {
        last = *next;
        rest = after;
    }
    is_same(last, *first)
}

fn meets_only_at_corners(alloc: Global, corners: &[Point]) -> Result<bool, Memory>
    ensures { IfOk result (λ simple. simple ≡ simple_test corners.now) }
{
    is_simple(alloc, corners)
}

/// The corners of a closed ring: repeated points and those inside straight runs are dropped. None stands for a ring
/// that isn't closed or whose sides aren't parallel to the axes or meet elsewhere than neighbours at their corner.
fn ring_in(alloc: Global, points: &[Point]) -> Result<Option<Vec<Point>>, Memory>
    ensures { IfOk result (λ ring. option_map (λ v. v.items) ring ≡ outline_in (Some points.now)) }
{
    if !ends_where_it_begins(points) {
        return Ok(None);
    }
    let ring = corners(alloc, points)?;
    if meets_only_at_corners(alloc, ring.as_slice())? {
        Ok(Some(ring))
    } else {
        Ok(None)
    }
}

#[tactic(auto, unfolding(crate::specs::ReadElements::outline_of))]
fn outline_in_content(alloc: Global, content: &[u8]) -> Result<Option<Vec<Point>>, Memory>
    ensures { IfOk result (λ ring. option_map (λ v. v.items) ring ≡ outline_of content.now) }
{
    match points_in(alloc, content)? {
        Some(points) => ring_in(alloc, points.as_slice()),
        None => Ok(None),
    }
}

/// XY of a boundary.
#[tactic(auto, unfolding(gds_records::specs::Reading::taken_at))]
fn outline_from(alloc: Global, bytes: &[u8]) -> Result<(Items<Point>, &[u8]), RecordError>
    ensures { MatchesReader (λ p. (p.0, p.1.now)) (λ z. z) result
        (taken_at demand.Outline XY outline_of (records_of bytes.now)) }
{
    let (taken, rest) = next(XY, bytes)?;
    match outline_in_content(alloc, taken.content)? {
        Some(points) => Ok((Items::from_vec(points), rest)),
        None => Err(unmet(taken, Demand::Outline)),
    }
}

/// BOUNDARY LAYER DATATYPE XY, and properties up to ENDEL.
#[tactic(auto, unfolding(crate::specs::ReadElements::boundary_at))]
pub fn boundary_from(alloc: Global, bytes: &[u8]) -> Result<(Element, &[u8]), RecordError>
    ensures { MatchesReader (λ p. (p.0, p.1.now)) (λ z. z) result (boundary_at (records_of bytes.now)) }
{
    let (layer, datatype, rest) = layers_from(BOUNDARY, DATATYPE, bytes)?;
    let (points, rest) = outline_from(alloc, rest)?;
    let (props, rest) = properties_from(alloc, rest)?;
    let element = Element::Boundary {
        layer,
        datatype,
        points,
        props,
    };
    Ok((element, rest))
}
