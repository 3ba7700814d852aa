ghost use Rattle.gds_records.specs.Bytes.{records_of, MatchesReader};
ghost use Rattle.gds_library.specs.ReadElements.{layers_at, property_at, properties_at};
ghost use Rattle.std.specs.Prelude.{ℤ};

use crate::library::Prop;
use gds_records::code::*;
use gds_records::{RecordError, begun, has_code, int16_from, next, text_from};
use or_geom::Items;
use std::alloc::Global;

/// The record that begins an element, its flags, LAYER and another number.
#[tactic(auto, unfolding(crate::specs::ReadElements::layers_at))]
pub fn layers_from(code: u16, second: u16, bytes: &[u8]) -> Result<(i16, i16, &[u8]), RecordError>
    ensures { MatchesReader {X = ℤ × ℤ} (λ p. ((p.0, p.1), p.2.now)) (λ z. z) result
        (layers_at code second (records_of bytes.now)) }
{
    let rest = begun(code, bytes)?;
    let (layer, rest) = int16_from(LAYER, rest)?;
    let (kind, rest) = int16_from(second, rest)?;
    Ok((layer, kind, rest))
}

/// PROPATTR PROPVALUE.
#[tactic(auto, unfolding(crate::specs::ReadElements::property_at))]
fn property_from(alloc: Global, bytes: &[u8]) -> Result<(Prop, &[u8]), RecordError>
    ensures { MatchesReader (λ p. (p.0, p.1.now)) (λ z. z) result (property_at (records_of bytes.now)) }
{
    let (attr, rest) = int16_from(PROPATTR, bytes)?;
    let (value, rest) = text_from(alloc, PROPVALUE, rest)?;
    Ok((Prop { attr, value }, rest))
}

/// Properties up to ENDEL.
pub fn properties_from(alloc: Global, bytes: &[u8]) -> Result<(Items<Prop>, &[u8]), RecordError>
    ensures { MatchesReader (λ p. (p.0, p.1.now)) (λ z. z) result (properties_at (records_of bytes.now)) }
{
    let mut items = Items::new(alloc);
    let mut rest = bytes;
    for _ in 0..bytes.len() {
        if has_code(ENDEL, rest) {
            match next(ENDEL, rest) {
                Ok((_, after)) => return Ok((items, after)),
                Err(error) => return Err(error),
            }
        }
        match property_from(alloc, rest) {
            Ok((property, after)) => {
                items.push(property)?;
                rest = after;
            }
            Err(error) => return Err(error),
        }
    }
    Err(RecordError::Short)
}
