ghost use Rattle.std.specs.Prelude.{◌≡◌, ◌++◌, ◌∷◌, [], List, IfOk, OnOk};
ghost use Rattle.gds_records.specs.Bytes.{records_of, MatchesReader};
ghost use Rattle.gds_records.specs.Reading.{taken_at};
ghost use Rattle.gds_records.specs.declared.error.Demand.TheVariants as demand;
ghost use Rattle.gds_library.specs.declared.library.Structure.{Structure};
ghost use Rattle.gds_library.specs.Grammar.{kept_elements};
ghost use Rattle.gds_library.specs.ReadLibrary.{elements_at, new_text_of, structure_at, structures_at};
ghost use Rattle.gds_library.specs.ReadLibrary.{AreStructureNames, AreStructureNamesAnd};

use crate::item::item_from;
use crate::library::{Element, Structure};
use crate::names::StructureNames;
use gds_records::code::*;
use gds_records::{Demand, RecordError, has_code, next, text_in, unmet};
use or_geom::{Items, Memory, Name};
use std::alloc::Global;

/// Keeps an element, or nothing.
fn keep(items: &mut Items<Element>, item: Option<Element>) -> Result<(), Memory>
    ensures { OnOk result (items.new ≡ items.old ++ kept_elements (item ∷ [])) }
{
    if let Some(element) = item {
        items.push(element)?;
    }
    Ok(())
}

/// Elements up to ENDSTR.
fn elements_from(alloc: Global, bytes: &[u8]) -> Result<(Items<Element>, &[u8]), RecordError>
    ensures { MatchesReader (λ p. (p.0, p.1.now)) (λ z. z) result (elements_at (records_of bytes.now)) }
{
    let mut items = Items::new(alloc);
    let mut rest = bytes;
    for _ in 0..bytes.len() {
        if has_code(ENDSTR, rest) {
            match next(ENDSTR, rest) {
                Ok((_, after)) => return Ok((items, after)),
                Err(error) => return Err(error),
            }
        }
        match item_from(alloc, rest) {
            Ok((item, after)) => {
                keep(&mut items, item)?;
                rest = after;
            }
            Err(error) => return Err(error),
        }
    }
    Err(RecordError::Short)
}

/// STRNAME, which no structure before has.
#[tactic(auto, unfolding(gds_records::specs::Reading::taken_at))]
fn name_from<'a>(
    alloc: Global,
    names: &mut StructureNames<'a>,
    bytes: &'a [u8],
) -> Result<(Name, &'a [u8]), RecordError>
    ensures read { (before : List Structure) → AreStructureNames names.old before
        → MatchesReader (λ p. (p.0, p.1.now)) (λ z. z) result
        (taken_at demand.NewName STRNAME (new_text_of before) (records_of bytes.now)) }
    ensures names { (before : List Structure) → AreStructureNames names.old before → IfOk result
        (λ p. AreStructureNamesAnd names.new p.0 before) }
{
    let (taken, rest) = next(STRNAME, bytes)?;
    let text = text_in(taken.content);
    if !names.add(text)? {
        return Err(unmet(taken, Demand::NewName));
    }
    let name = Name::from_bytes(alloc, text)?;
    Ok((name, rest))
}

/// BGNSTR STRNAME, and elements up to ENDSTR.
#[tactic(auto, unfolding(crate::specs::ReadLibrary::structure_at))]
fn structure_from<'a>(
    alloc: Global,
    names: &mut StructureNames<'a>,
    bytes: &'a [u8],
) -> Result<(Structure, &'a [u8]), RecordError>
    ensures read { (before : List Structure) → AreStructureNames names.old before
        → MatchesReader (λ p. (p.0, p.1.now)) (λ z. z) result
        (structure_at before (records_of bytes.now)) }
    ensures names { (before : List Structure) → AreStructureNames names.old before → IfOk result
        (λ p. AreStructureNamesAnd names.new p.0.name before) }
{
    let (_, rest) = next(BGNSTR, bytes)?;
    let (name, rest) = name_from(alloc, names, rest)?;
    let (elements, rest) = elements_from(alloc, rest)?;
    Ok((Structure { name, elements }, rest))
}

/// Structures up to ENDLIB.
pub fn structures_from(
    alloc: Global,
    bytes: &[u8],
) -> Result<(Items<Structure>, &[u8]), RecordError>
    ensures { MatchesReader (λ p. (p.0, p.1.now)) (λ z. z) result (structures_at (records_of bytes.now)) }
{
    let mut items = Items::new(alloc);
    let mut names = StructureNames::new(alloc);
    let mut rest = bytes;
    for _ in 0..bytes.len() {
        if has_code(ENDLIB, rest) {
            match next(ENDLIB, rest) {
                Ok((_, after)) => return Ok((items, after)),
                Err(error) => return Err(error),
            }
        }
        match structure_from(alloc, &mut names, rest) {
            Ok((structure, after)) => {
                items.push(structure)?;
                rest = after;
            }
            Err(error) => return Err(error),
        }
    }
    Err(RecordError::Short)
}
