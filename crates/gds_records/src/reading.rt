ghost use Rattle.std.specs.Prelude.{◌≡◌};
ghost use Rattle.gds_records.specs.Bytes.{records_of, MatchesReader};
ghost use Rattle.gds_records.specs.Reading.{next_at, taken_at, skip_at, has_next, taking, begin_at, bar_at};
ghost use Rattle.gds_records.specs.Values.{int16_of, string_of};
ghost use Rattle.gds_records.specs.declared.error.RecordError.TheVariants as error;
ghost use Rattle.gds_records.specs.declared.error.Fault.TheVariants as fault;
ghost use Rattle.gds_records.specs.declared.error.Demand.TheVariants as demand;

use crate::code::{ELFLAGS, PLEX};
use crate::error::{Demand, Fault, RecordError};
use crate::form::text_in;
use crate::record::{cut_record, formed};
use or_geom::Name;
use std::alloc::Global;

/// A record that was taken off the front: how many bytes were left where it begins, its code and its data.
#[derive(Clone, Copy)]
pub struct Taken<'a> {
    pub left: usize,
    pub code: u16,
    pub content: &'a [u8],
}

/// Where reading stops at a record whose data doesn't meet a demand.
pub fn unmet(taken: Taken<'_>, demand: Demand) -> RecordError
    ensures { result ≡ error.At taken.entry.left taken.entry.code (fault.Unmet demand) }
{
    RecordError::At {
        left: taken.left,
        code: taken.code,
        fault: Fault::Unmet(demand),
    }
}

/// The next record, which has to have this code.
#[tactic(auto, using(crate::proofs::BytesLaws::none_left, crate::proofs::BytesLaws::one_more, crate::proofs::BytesLaws::all_left), unfolding(crate::specs::Reading::next_at))]
pub fn next(code: u16, bytes: &[u8]) -> Result<(Taken<'_>, &[u8]), RecordError>
    ensures { MatchesReader (λ p. (taking p.0.left p.0.code p.0.content.now, p.1.now)) (λ e. e) result
        (next_at code (records_of bytes.now)) }
{
    let left = bytes.len();
    let Some((record, rest)) = cut_record(bytes) else {
        return Err(RecordError::Short);
    };
    if !formed(record) {
        return Err(RecordError::At {
            left,
            code: record.code,
            fault: Fault::BadRecord,
        });
    }
    if record.code != code {
        return Err(RecordError::At {
            left,
            code: record.code,
            fault: Fault::NotInPlace,
        });
    }
    Ok((
        Taken {
            left,
            code: record.code,
            content: record.content,
        },
        rest,
    ))
}

/// Whether the next record has this code.
#[tactic(auto, using(crate::proofs::BytesLaws::none_left, crate::proofs::BytesLaws::one_more))]
pub fn has_code(code: u16, bytes: &[u8]) -> bool
    ensures { result ≡ has_next code (records_of bytes.now) }
{
    match cut_record(bytes) {
        Some((record, _)) => record.code == code,
        None => false,
    }
}

/// Past a record that may be left out.
#[tactic(auto, unfolding(crate::specs::Reading::skip_at))]
pub fn skipped(code: u16, bytes: &[u8]) -> Result<&[u8], RecordError>
    ensures { MatchesReader (λ p. (tt, p.now)) (λ z. z) result (skip_at code (records_of bytes.now)) }
{
    if has_code(code, bytes) {
        let (_, rest) = next(code, bytes)?;
        Ok(rest)
    } else {
        Ok(bytes)
    }
}

/// A record of one number of two bytes.
#[tactic(auto, unfolding(crate::specs::Reading::taken_at))]
pub fn int16_from(code: u16, bytes: &[u8]) -> Result<(i16, &[u8]), RecordError>
    ensures { MatchesReader (λ p. (p.0, p.1.now)) (λ z. z) result
        (taken_at demand.Plain code int16_of (records_of bytes.now)) }
{
    let (taken, rest) = next(code, bytes)?;
    match taken.content {
        [a, b] => Ok((i16::from_be_bytes([*a, *b]), rest)),
        _ => Err(unmet(taken, Demand::Plain)),
    }
}

/// A record of one text.
#[tactic(auto, unfolding(crate::specs::Reading::taken_at))]
pub fn text_from(alloc: Global, code: u16, bytes: &[u8]) -> Result<(Name, &[u8]), RecordError>
    ensures { MatchesReader (λ p. (p.0, p.1.now)) (λ t. t) result
        (taken_at demand.Plain code string_of (records_of bytes.now)) }
{
    let (taken, rest) = next(code, bytes)?;
    let text = Name::from_bytes(alloc, text_in(taken.content))?;
    Ok((text, rest))
}

/// The record that begins an element, and its flags, which are dropped.
#[tactic(auto, unfolding(crate::specs::Reading::begin_at))]
pub fn begun(code: u16, bytes: &[u8]) -> Result<&[u8], RecordError>
    ensures { MatchesReader (λ p. (tt, p.now)) (λ z. z) result (begin_at code (records_of bytes.now)) }
{
    let (_, rest) = next(code, bytes)?;
    let rest = skipped(ELFLAGS, rest)?;
    skipped(PLEX, rest)
}

/// Refuses a record that could stand here and that no data makes right.
#[tactic(auto, unfolding(crate::specs::Reading::bar_at))]
pub fn barred(demand: Demand, code: u16, bytes: &[u8]) -> Result<(), RecordError>
    ensures { MatchesReader (λ p. (tt, bytes.now)) (λ z. z) result (bar_at demand code (records_of bytes.now)) }
{
    if has_code(code, bytes) {
        let (taken, _) = next(code, bytes)?;
        Err(unmet(taken, demand))
    } else {
        Ok(())
    }
}
