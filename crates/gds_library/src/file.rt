ghost use Rattle.gds_records.specs.Bytes.{records_of, MatchesReader};
ghost use Rattle.gds_library.specs.ReadLibrary.{skip_tables_at, library_at};

use crate::library::Library;
use crate::structure::structures_from;
use crate::values::units_from;
use gds_records::code::*;
use gds_records::{RecordError, next, skipped, text_from};
use std::alloc::Global;

/// The tables of names and the number of generations, which are dropped.
#[tactic(auto, unfolding(crate::specs::ReadLibrary::skip_tables_at))]
fn tables_skipped(bytes: &[u8]) -> Result<&[u8], RecordError>
    ensures { MatchesReader (λ p. (tt, p.now)) (λ z. z) result (skip_tables_at (records_of bytes.now)) }
{
    let rest = skipped(REFLIBS, bytes)?;
    let rest = skipped(FONTS, rest)?;
    let rest = skipped(ATTRTABLE, rest)?;
    skipped(GENERATIONS, rest)
}

/// A library up to ENDLIB.
#[tactic(auto, unfolding(crate::specs::ReadLibrary::library_at))]
pub fn library_from(alloc: Global, bytes: &[u8]) -> Result<(Library, &[u8]), RecordError>
    ensures { MatchesReader (λ p. (p.0, p.1.now)) (λ z. z) result (library_at (records_of bytes.now)) }
{
    let (_, rest) = next(HEADER, bytes)?;
    let (_, rest) = next(BGNLIB, rest)?;
    let (name, rest) = text_from(alloc, LIBNAME, rest)?;
    let rest = tables_skipped(rest)?;
    let rest = units_from(rest)?;
    let (structs, rest) = structures_from(alloc, rest)?;
    Ok((Library { name, structs }, rest))
}
