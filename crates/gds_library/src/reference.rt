ghost use Rattle.std.specs.Prelude.{◌≡◌, pos, Some};
ghost use Rattle.gds_records.specs.Bytes.{records_of, MatchesReader};
ghost use Rattle.gds_records.specs.Reading.{taken_at, or_at};
ghost use Rattle.gds_records.specs.Values.{point_of};
ghost use Rattle.gds_records.specs.declared.error.Demand.TheVariants as demand;
ghost use Rattle.or_geom.specs.declared.place.Orient.{Orient};
ghost use Rattle.or_geom.specs.declared.shape.Point.{Point};
ghost use Rattle.gds_library.specs.declared.transform.Turn.TheVariants.{Zero};
ghost use Rattle.gds_library.specs.Values.{mirror_of, upright_of, turn_of};
ghost use Rattle.gds_library.specs.ReadElements.{named_at, turn_at, orient_at, place_at, sref_at};

use crate::library::Element;
use crate::property::properties_from;
use crate::transform::{Turn, mirror_in, orient_from_parts, turn_in, upright_in};
use gds_records::code::*;
use gds_records::{Demand, RecordError, begun, has_code, next, point_in, text_from, unmet};
use or_geom::{Name, Orient, Place, Point};
use std::alloc::Global;

/// The record that begins a reference, and SNAME.
#[tactic(auto, unfolding(crate::specs::ReadElements::named_at))]
pub fn named_from(alloc: Global, code: u16, bytes: &[u8]) -> Result<(Name, &[u8]), RecordError>
    ensures { MatchesReader (λ p. (p.0, p.1.now)) (λ z. z) result (named_at code (records_of bytes.now)) }
{
    let rest = begun(code, bytes)?;
    text_from(alloc, SNAME, rest)
}

#[tactic(auto, unfolding(gds_records::specs::Reading::taken_at))]
fn mirror_from(bytes: &[u8]) -> Result<(bool, &[u8]), RecordError>
    ensures { MatchesReader (λ p. (p.0, p.1.now)) (λ z. z) result
        (taken_at demand.Transform STRANS mirror_of (records_of bytes.now)) }
{
    let (taken, rest) = next(STRANS, bytes)?;
    match mirror_in(taken.content) {
        Some(mirrored) => Ok((mirrored, rest)),
        None => Err(unmet(taken, Demand::Transform)),
    }
}

/// MAG, which may be left out and otherwise has to be 1.
#[tactic(auto, unfolding(gds_records::specs::Reading::taken_at, gds_records::specs::Reading::or_at))]
fn upright_from(bytes: &[u8]) -> Result<&[u8], RecordError>
    ensures { MatchesReader (λ p. (tt, p.now)) (λ z. z) result
        (or_at demand.Transform MAG upright_of tt (records_of bytes.now)) }
{
    if !has_code(MAG, bytes) {
        return Ok(bytes);
    }
    let (taken, rest) = next(MAG, bytes)?;
    match upright_in(taken.content) {
        Some(()) => Ok(rest),
        None => Err(unmet(taken, Demand::Transform)),
    }
}

/// ANGLE, which is 0 where it is left out.
#[tactic(auto, unfolding(gds_records::specs::Reading::taken_at, gds_records::specs::Reading::or_at))]
fn angle_from(bytes: &[u8]) -> Result<(Turn, &[u8]), RecordError>
    ensures { MatchesReader (λ p. (p.0, p.1.now)) (λ z. z) result
        (or_at demand.Transform ANGLE turn_of Zero (records_of bytes.now)) }
{
    if !has_code(ANGLE, bytes) {
        return Ok((Turn::Zero, bytes));
    }
    let (taken, rest) = next(ANGLE, bytes)?;
    match turn_in(taken.content) {
        Some(turn) => Ok((turn, rest)),
        None => Err(unmet(taken, Demand::Transform)),
    }
}

/// [STRANS [MAG] [ANGLE]].
#[tactic(auto, unfolding(crate::specs::ReadElements::orient_at, crate::specs::ReadElements::turn_at))]
pub fn orient_from(bytes: &[u8]) -> Result<(Orient, &[u8]), RecordError>
    ensures { MatchesReader (λ p. (p.0, p.1.now)) (λ z. z) result (orient_at (records_of bytes.now)) }
{
    if !has_code(STRANS, bytes) {
        return Ok((Orient::R0, bytes));
    }
    let (mirrored, rest) = mirror_from(bytes)?;
    let rest = upright_from(rest)?;
    let (turn, rest) = angle_from(rest)?;
    Ok((orient_from_parts(mirrored, turn), rest))
}

/// XY of one point.
#[tactic(auto, unfolding(gds_records::specs::Reading::taken_at))]
pub fn point_from(bytes: &[u8]) -> Result<(Point, &[u8]), RecordError>
    ensures { MatchesReader (λ p. (p.0, p.1.now)) (λ z. z) result
        (taken_at demand.Plain XY point_of (records_of bytes.now)) }
{
    let (taken, rest) = next(XY, bytes)?;
    match point_in(taken.content) {
        Some(point) => Ok((point, rest)),
        None => Err(unmet(taken, Demand::Plain)),
    }
}

/// [STRANS [MAG] [ANGLE]] XY.
#[tactic(auto, unfolding(crate::specs::ReadElements::place_at))]
fn place_from(bytes: &[u8]) -> Result<(Place, &[u8]), RecordError>
    ensures { MatchesReader (λ p. ((p.0.orient, p.0.at), p.1.now)) (λ z. z) result
        (place_at (records_of bytes.now)) }
{
    let (orient, rest) = orient_from(bytes)?;
    let (at, rest) = point_from(rest)?;
    Ok((Place { orient, at }, rest))
}

/// SREF SNAME [STRANS [MAG] [ANGLE]] XY, and properties up to ENDEL.
#[tactic(auto, unfolding(crate::specs::ReadElements::sref_at))]
pub fn sref_from(alloc: Global, bytes: &[u8]) -> Result<(Element, &[u8]), RecordError>
    ensures { MatchesReader (λ p. (p.0, p.1.now)) (λ z. z) result (sref_at (records_of bytes.now)) }
{
    let (name, rest) = named_from(alloc, SREF, bytes)?;
    let (place, rest) = place_from(rest)?;
    let (props, rest) = properties_from(alloc, rest)?;
    Ok((Element::Sref { name, place, props }, rest))
}
