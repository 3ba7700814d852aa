ghost use Rattle.std.specs.Prelude.{None};
ghost use Rattle.gds_records.specs.Bytes.{records_of, MatchesReader};
ghost use Rattle.gds_library.specs.ReadElements.{dropped_at, unkept_at, reference_at, item_at};

use crate::array::aref_from;
use crate::boundary::boundary_from;
use crate::label::label_from;
use crate::library::{Element, Prop};
use crate::path::path_from;
use crate::property::properties_from;
use crate::reference::sref_from;
use gds_records::code::*;
use gds_records::{RecordError, begun, has_code, next};
use or_geom::Items;
use std::alloc::Global;

/// An element of which nothing is kept: LAYER, another number, XY, and properties up to ENDEL.
#[tactic(auto, unfolding(crate::specs::ReadElements::dropped_at))]
fn dropped_from(
    alloc: Global,
    code: u16,
    second: u16,
    bytes: &[u8],
) -> Result<(Items<Prop>, &[u8]), RecordError>
    ensures { MatchesReader (λ p. (p.0, p.1.now)) (λ z. z) result
        (dropped_at code second (records_of bytes.now)) }
{
    let rest = begun(code, bytes)?;
    let (_, rest) = next(LAYER, rest)?;
    let (_, rest) = next(second, rest)?;
    let (_, rest) = next(XY, rest)?;
    properties_from(alloc, rest)
}

/// NODE or BOX.
#[tactic(auto, unfolding(crate::specs::ReadElements::unkept_at, gds_records::specs::Reading::fork_at))]
fn unkept_from(alloc: Global, bytes: &[u8]) -> Result<&[u8], RecordError>
    ensures { MatchesReader (λ p. (None, p.now)) (λ z. z) result (unkept_at (records_of bytes.now)) }
{
    if has_code(NODE, bytes) {
        let (_, rest) = dropped_from(alloc, NODE, NODETYPE, bytes)?;
        return Ok(rest);
    }
    let (_, rest) = dropped_from(alloc, BOX, BOXTYPE, bytes)?;
    Ok(rest)
}

/// SREF, AREF or TEXT, or one of which nothing is kept.
#[tactic(auto, unfolding(crate::specs::ReadElements::reference_at, gds_records::specs::Reading::fork_at))]
fn reference_from(alloc: Global, bytes: &[u8]) -> Result<(Option<Element>, &[u8]), RecordError>
    ensures { MatchesReader (λ p. (p.0, p.1.now)) (λ z. z) result (reference_at (records_of bytes.now)) }
{
    if has_code(SREF, bytes) {
        let (element, rest) = sref_from(alloc, bytes)?;
        return Ok((Some(element), rest));
    }
    if has_code(AREF, bytes) {
        let (element, rest) = aref_from(alloc, bytes)?;
        return Ok((Some(element), rest));
    }
    if has_code(TEXT, bytes) {
        let (element, rest) = label_from(alloc, bytes)?;
        return Ok((Some(element), rest));
    }
    let rest = unkept_from(alloc, bytes)?;
    Ok((None, rest))
}

/// An element, or None for one of which nothing is kept.
#[tactic(auto, unfolding(crate::specs::ReadElements::item_at, gds_records::specs::Reading::fork_at))]
pub fn item_from(alloc: Global, bytes: &[u8]) -> Result<(Option<Element>, &[u8]), RecordError>
    ensures { MatchesReader (λ p. (p.0, p.1.now)) (λ z. z) result (item_at (records_of bytes.now)) }
{
    if has_code(BOUNDARY, bytes) {
        let (element, rest) = boundary_from(alloc, bytes)?;
        return Ok((Some(element), rest));
    }
    if has_code(PATH, bytes) {
        let (element, rest) = path_from(alloc, bytes)?;
        return Ok((Some(element), rest));
    }
    reference_from(alloc, bytes)
}
