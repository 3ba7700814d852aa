ghost use Rattle.std.specs.Prelude.{◌≡◌, ◌≤◌, ◌-◌, ◌↔◌, None, Ok, Err, length, IsTrue, IfOk, IfErr};
ghost use Rattle.gds_records.specs.Bytes.{records_of, length_in};
ghost use Rattle.gds_records.specs.declared.error.RecordError.TheVariants as error;
ghost use Rattle.gds_library.specs.ReadLibrary.{library_at};
ghost use Rattle.gds_library.specs.Grammar.{Spells};
ghost use Rattle.gds_library.specs.Writable.{IsWritable};
ghost use Rattle.gds_library.specs.FirstFault.{IsCutShort, wanted_after, IsFaultOf, IsRefused};
ghost use Rattle.gds_library.specs.ReadFault.{wanted_before, Miscounts, unmet_fault_of, SkipsZeros, IsZeroNever};

use crate::fault::GdsFault;
use crate::file::library_from;
use crate::library::Library;
use gds_records::code::*;
use gds_records::{Demand, Fault, RecordError, cut_record};
use std::alloc::Global;

/// Whether fewer bytes are left than four or than the record's length.
fn is_cut_short(rest: &[u8]) -> bool
    ensures { IsTrue result ↔ IsCutShort rest.now }
{
    match rest {
        [a, b, _, _, ..] => rest.len() < 256 * usize::from(*a) + usize::from(*b),
        _ => true,
    }
}

/// How many points an XY has after a record of this code, where that is fixed.
fn points_after(now: Option<u8>, code: u16) -> Option<u8>
    ensures { result ≡ wanted_after now code }
{
    match code {
        SREF | TEXT => Some(1),
        AREF => Some(3),
        ENDEL => None,
        _ => now,
    }
}

/// How many points an XY has where so many bytes are left, where that is fixed.
fn points_wanted(bytes: &[u8], left: usize) -> Option<u8>
    ensures { result ≡ wanted_before left None (records_of bytes.now) }
{
    let mut wanted = None;
    let mut rest = bytes;
    'records: while left < rest.len() {
        let Some((record, after)) = cut_record(rest) else {
            return wanted;
        };
        wanted = points_after(wanted, record.code);
        rest = after;
    }
    wanted
}

/// What follows the zero bytes.
fn after_zeros(bytes: &[u8]) -> &[u8]
    ensures parts { SkipsZeros bytes.now result.now }
    ensures tail { IsZeroNever result.now }
{
    let mut tail = bytes;
    while let Some((first, others)) = tail.split_first() {
        if *first != 0 {
            return tail;
        }
        tail = others;
    }
    tail
}

/// The length that the first two bytes give.
fn length_of(rest: &[u8]) -> usize
    ensures { result ≡ length_in rest.now }
{
    match rest {
        [a, b, ..] => 256 * usize::from(*a) + usize::from(*b),
        _ => 0,
    }
}

/// Whether an XY of this length has another number of points than is wanted.
fn is_miscounted(wanted: Option<u8>, code: u16, length: usize) -> bool
    ensures { IsTrue result ↔ Miscounts wanted code length }
{
    if code != XY {
        return false;
    }
    match wanted {
        Some(count) => length != 8 * usize::from(count) + 4,
        None => false,
    }
}

fn unmet_fault(at: u64, code: u16, demand: Demand) -> GdsFault
    ensures { result ≡ unmet_fault_of at code demand }
{
    match demand {
        Demand::Plain => GdsFault::BadRecord { at, code },
        Demand::Units => GdsFault::BadUnits { at },
        Demand::Outline => GdsFault::NotManhattan { at },
        Demand::Transform => GdsFault::BadTransform { at },
        Demand::Track => GdsFault::BadPath { at },
        Demand::NewName => GdsFault::Twice { at },
    }
}

/// The fault of the record at which reading stopped.
fn fault_at(bytes: &[u8], left: usize, code: u16, fault: Fault) -> GdsFault
    requires { library_at (records_of bytes.now) ≡ Err (error.At left code fault) }
    ensures { IsFaultOf result bytes.now }
{
    let from = bytes.len() - left;
    let at = from as u64;
    let (_, rest) = bytes.split_at(from);
    match fault {
        Fault::BadRecord => {
            if is_cut_short(rest) {
                return GdsFault::Truncated { at };
            }
            GdsFault::BadRecord { at, code }
        }
        Fault::NotInPlace => {
            if is_miscounted(points_wanted(bytes, left), code, length_of(rest)) {
                return GdsFault::BadRecord { at, code };
            }
            GdsFault::NotInPlace { at, code }
        }
        Fault::Unmet(demand) => {
            if is_miscounted(points_wanted(bytes, left), code, length_of(rest)) {
                return GdsFault::BadRecord { at, code };
            }
            unmet_fault(at, code, demand)
        }
    }
}

/// The library that was read, where zero bytes alone follow it.
fn finish(bytes: &[u8], library: Library, rest: &[u8]) -> Result<Library, GdsFault>
    requires { library_at (records_of bytes.now) ≡ Ok (library, records_of rest.now) }
    ensures read { IfOk result (Spells bytes.now) }
    ensures refused { IfErr result (λ fault. IsRefused fault bytes.now) }
    ensures first { IfErr result (λ fault. IsFaultOf fault bytes.now) }
{
    let tail = after_zeros(rest);
    if tail.is_empty() {
        return Ok(library);
    }
    let at = (bytes.len() - tail.len()) as u64;
    Err(GdsFault::TrailingBytes { at })
}

/// Reads a library (Calma GDSII Stream Format, release 6). Lengths are in database units, which have to be nanometres.
///
/// REFLIBS, FONTS, ATTRTABLE, GENERATIONS, ELFLAGS, PLEX, PRESENTATION, dates, NODE and BOX elements, how a label is
/// drawn, and zero bytes after ENDLIB are read and dropped. A boundary's points are those at which it turns; a path has
/// a width, and no round ends or extensions; a reference is turned by multiples of 90 degrees and not magnified. What
/// is read can be written.
///
/// The bytes are refused exactly where they are no library, and then by the first record that no library has after
/// those before it. `Memory` means out of memory, whatever the bytes are.
pub fn read_gds(alloc: Global, bytes: &[u8]) -> Result<Library, GdsFault>
    ensures read { IfOk result (Spells bytes.now) }
    ensures writable { IfOk result IsWritable }
    ensures refused { IfErr result (λ fault. IsRefused fault bytes.now) }
    ensures first { IfErr result (λ fault. IsFaultOf fault bytes.now) }
{
    match library_from(alloc, bytes) {
        Ok((library, rest)) => finish(bytes, library, rest),
        Err(RecordError::Short) => Err(GdsFault::Truncated {
            at: bytes.len() as u64,
        }),
        Err(RecordError::At { left, code, fault }) => Err(fault_at(bytes, left, code, fault)),
        Err(RecordError::Memory) => Err(GdsFault::Memory),
    }
}
