ghost use Rattle.std.specs.Prelude.{◌≡◌, ◌↔◌, IfOk, IsTrue, ℤ, List, pos};
ghost use Rattle.std.specs.Option.{option_map};
ghost use Rattle.or_geom.specs.declared.shape.Point.{Point};
ghost use Rattle.gds_records.specs.Bytes.{records_of, MatchesReader};
ghost use Rattle.gds_records.specs.Reading.{taken_at, or_at};
ghost use Rattle.gds_records.specs.declared.error.Demand.TheVariants as demand;
ghost use Rattle.rectilinear.proofs.SimpleTest.{straight_test};
ghost use Rattle.rectilinear.specs.Simple.{AllStraight};
ghost use Rattle.gds_library.specs.Values.{segments, path_kind_of, width_of};
ghost use Rattle.gds_library.specs.ReadElements.{spine_of, drawn_at, wide_at, spine_at, track_at, path_at};

use crate::library::Element;
use crate::property::{layers_from, properties_from};
use gds_records::code::*;
use gds_records::{Demand, RecordError, barred, has_code, next, points_in, unmet};
use or_geom::{Items, Memory, Point};
use rectilinear::{RingSide, is_straight};
use std::alloc::Global;

/// How a path's points are drawn: its width and the points.
#[derive(Drop)]
struct Spine {
    width: i32,
    points: Items<Point>,
}

fn kind_in(content: &[u8]) -> Option<i16>
    ensures { result ≡ path_kind_of content.now }
{
    let [a, b] = content else {
        return None;
    };
    if *a == 0 && *b == 0 {
        return Some(0);
    }
    if *a == 0 && *b == 2 {
        return Some(2);
    }
    None
}

/// PATHTYPE, which is 0 where it is left out.
#[tactic(auto, unfolding(gds_records::specs::Reading::taken_at, gds_records::specs::Reading::or_at))]
fn kind_from(bytes: &[u8]) -> Result<(i16, &[u8]), RecordError>
    ensures { MatchesReader (λ p. (p.0, p.1.now)) (λ z. z) result
        (or_at demand.Track PATHTYPE path_kind_of (pos 0) (records_of bytes.now)) }
{
    if !has_code(PATHTYPE, bytes) {
        return Ok((0, bytes));
    }
    let (taken, rest) = next(PATHTYPE, bytes)?;
    match kind_in(taken.content) {
        Some(kind) => Ok((kind, rest)),
        None => Err(unmet(taken, Demand::Track)),
    }
}

fn width_in(content: &[u8]) -> Option<i32>
    ensures { result ≡ width_of content.now }
{
    let [a, b, c, d] = content else {
        return None;
    };
    let width = i32::from_be_bytes([*a, *b, *c, *d]);
    if 1 <= width && *d % 2 == 0 {
        Some(width)
    } else {
        None
    }
}

/// WIDTH, a positive even number.
#[tactic(auto, unfolding(gds_records::specs::Reading::taken_at))]
fn width_from(bytes: &[u8]) -> Result<(i32, &[u8]), RecordError>
    ensures { MatchesReader (λ p. (p.0, p.1.now)) (λ z. z) result
        (taken_at demand.Track WIDTH width_of (records_of bytes.now)) }
{
    let (taken, rest) = next(WIDTH, bytes)?;
    match width_in(taken.content) {
        Some(width) => Ok((width, rest)),
        None => Err(unmet(taken, Demand::Track)),
    }
}

/// Whether each segment is parallel to an axis and longer than zero.
fn are_straight(points: &[Point]) -> bool
    ensures { IsTrue result ↔ AllStraight (segments points.now) }
{
    let Some((first, others)) = points.split_first() else {
        return true;
    };
    let mut from = *first;
    let mut rest = others;
    while let Some((next, after)) = rest.split_first() {
        if !is_straight(RingSide { a: from, b: *next }) {
            return false;
        }
        from = *next;
        rest = after;
    }
    true
}

fn is_track(points: &[Point]) -> bool
    ensures { result ≡ straight_test (segments points.now) }
{
    are_straight(points)
}

#[tactic(auto, unfolding(crate::specs::ReadElements::spine_of))]
fn spine_in_content(alloc: Global, content: &[u8]) -> Result<Option<Vec<Point>>, Memory>
    ensures { IfOk result (λ points. option_map (λ v. v.items) points ≡ spine_of content.now) }
{
    let Some(points) = points_in(alloc, content)? else {
        return Ok(None);
    };
    if 2 <= points.len() && is_track(points.as_slice()) {
        Ok(Some(points))
    } else {
        Ok(None)
    }
}

#[tactic(auto, unfolding(gds_records::specs::Reading::taken_at))]
fn points_from(alloc: Global, bytes: &[u8]) -> Result<(Items<Point>, &[u8]), RecordError>
    ensures { MatchesReader (λ p. (p.0, p.1.now)) (λ z. z) result
        (taken_at demand.Track XY spine_of (records_of bytes.now)) }
{
    let (taken, rest) = next(XY, bytes)?;
    match spine_in_content(alloc, taken.content)? {
        Some(points) => Ok((Items::from_vec(points), rest)),
        None => Err(unmet(taken, Demand::Track)),
    }
}

/// XY, before which BGNEXTN and ENDEXTN are refused.
#[tactic(auto, unfolding(crate::specs::ReadElements::drawn_at))]
fn drawn_from(alloc: Global, bytes: &[u8]) -> Result<(Items<Point>, &[u8]), RecordError>
    ensures { MatchesReader (λ p. (p.0, p.1.now)) (λ z. z) result (drawn_at (records_of bytes.now)) }
{
    barred(Demand::Track, BGNEXTN, bytes)?;
    barred(Demand::Track, ENDEXTN, bytes)?;
    points_from(alloc, bytes)
}

/// WIDTH and XY. A path without a width is refused at what stands in its place.
#[tactic(auto, unfolding(crate::specs::ReadElements::spine_at, crate::specs::ReadElements::wide_at))]
fn spine_from(alloc: Global, bytes: &[u8]) -> Result<(Spine, &[u8]), RecordError>
    ensures { MatchesReader {X = ℤ × List Point} (λ p. ((p.0.width, p.0.points), p.1.now)) (λ z. z) result
        (spine_at (records_of bytes.now)) }
{
    barred(Demand::Track, BGNEXTN, bytes)?;
    barred(Demand::Track, ENDEXTN, bytes)?;
    barred(Demand::Track, XY, bytes)?;
    let (width, rest) = width_from(bytes)?;
    let (points, rest) = drawn_from(alloc, rest)?;
    Ok((Spine { width, points }, rest))
}

/// PATH LAYER DATATYPE [PATHTYPE] WIDTH XY, and properties up to ENDEL.
#[tactic(auto, unfolding(crate::specs::ReadElements::path_at, crate::specs::ReadElements::track_at))]
pub fn path_from(alloc: Global, bytes: &[u8]) -> Result<(Element, &[u8]), RecordError>
    ensures { MatchesReader (λ p. (p.0, p.1.now)) (λ z. z) result (path_at (records_of bytes.now)) }
{
    let (layer, datatype, rest) = layers_from(PATH, DATATYPE, bytes)?;
    let (kind, rest) = kind_from(rest)?;
    let (spine, rest) = spine_from(alloc, rest)?;
    let (props, rest) = properties_from(alloc, rest)?;
    let Spine { width, points } = spine;
    let element = Element::Path {
        layer,
        datatype,
        kind,
        width,
        points,
        props,
    };
    Ok((element, rest))
}
