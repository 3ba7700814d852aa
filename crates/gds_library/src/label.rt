ghost use Rattle.gds_records.specs.Bytes.{records_of, MatchesReader};
ghost use Rattle.gds_library.specs.ReadElements.{skip_turn_at, style_at, text_at};

use crate::library::Element;
use crate::property::{layers_from, properties_from};
use crate::reference::point_from;
use gds_records::code::*;
use gds_records::{RecordError, has_code, next, skipped, text_from};
use std::alloc::Global;

/// [STRANS [MAG] [ANGLE]], which are dropped.
#[tactic(auto, unfolding(crate::specs::ReadElements::skip_turn_at))]
fn turn_skipped(bytes: &[u8]) -> Result<&[u8], RecordError>
    ensures { MatchesReader (λ p. (tt, p.now)) (λ z. z) result (skip_turn_at (records_of bytes.now)) }
{
    if !has_code(STRANS, bytes) {
        return Ok(bytes);
    }
    let (_, rest) = next(STRANS, bytes)?;
    let rest = skipped(MAG, rest)?;
    skipped(ANGLE, rest)
}

/// How a label is drawn, which is dropped.
#[tactic(auto, unfolding(crate::specs::ReadElements::style_at))]
fn style_skipped(bytes: &[u8]) -> Result<&[u8], RecordError>
    ensures { MatchesReader (λ p. (tt, p.now)) (λ z. z) result (style_at (records_of bytes.now)) }
{
    let rest = skipped(PRESENTATION, bytes)?;
    let rest = skipped(PATHTYPE, rest)?;
    let rest = skipped(WIDTH, rest)?;
    turn_skipped(rest)
}

/// TEXT LAYER TEXTTYPE XY STRING, with what is dropped, and properties up to ENDEL.
#[tactic(auto, unfolding(crate::specs::ReadElements::text_at))]
pub fn label_from(alloc: Global, bytes: &[u8]) -> Result<(Element, &[u8]), RecordError>
    ensures { MatchesReader (λ p. (p.0, p.1.now)) (λ z. z) result (text_at (records_of bytes.now)) }
{
    let (layer, texttype, rest) = layers_from(TEXT, TEXTTYPE, bytes)?;
    let rest = style_skipped(rest)?;
    let (at, rest) = point_from(rest)?;
    let (string, rest) = text_from(alloc, STRING, rest)?;
    let (props, rest) = properties_from(alloc, rest)?;
    let element = Element::Text {
        layer,
        texttype,
        at,
        string,
        props,
    };
    Ok((element, rest))
}
