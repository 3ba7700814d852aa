ghost use Rattle.std.specs.Prelude.{◌≡◌, ◌↔◌, ◌==◌};
ghost use Rattle.gds_records.specs.Bytes.{records_of, MatchesReader};
ghost use Rattle.gds_records.specs.Reading.{taken_at};
ghost use Rattle.gds_records.specs.declared.error.Demand.TheVariants as demand;
ghost use Rattle.gds_library.specs.Values.{is_near_nanometre, units_of, is_unit};

use crate::limits::{NANOMETRE, NANOMETRE_EXPONENT, ROUNDING};
use gds_records::code::UNITS;
use gds_records::{Demand, RecordError, next, unmet};

/// Whether a mantissa is that of one nanometre, but for rounding.
fn is_near(mantissa: u64) -> bool
    ensures { result ≡ is_near_nanometre mantissa }
{
    mantissa <= NANOMETRE + ROUNDING && NANOMETRE <= mantissa + ROUNDING
}

/// UNITS, whose second real is one nanometre. The first is ignored.
fn is_nanometre(content: &[u8]) -> bool
    ensures { result ≡ is_unit content.now }
{
    match content {
        [_, _, _, _, _, _, _, _, first, a, b, c, d, e, f, g] => {
            *first == NANOMETRE_EXPONENT
                && is_near(u64::from_be_bytes([0, *a, *b, *c, *d, *e, *f, *g]))
        }
        _ => false,
    }
}

/// UNITS, which has to be one nanometre.
#[tactic(auto, unfolding(gds_records::specs::Reading::taken_at))]
pub fn units_from(bytes: &[u8]) -> Result<&[u8], RecordError>
    ensures { MatchesReader (λ p. (tt, p.now)) (λ z. z) result
        (taken_at demand.Units UNITS units_of (records_of bytes.now)) }
{
    let (taken, rest) = next(UNITS, bytes)?;
    if is_nanometre(taken.content) {
        Ok(rest)
    } else {
        Err(unmet(taken, Demand::Units))
    }
}
