ghost use Rattle.std.specs.Prelude.{◌<◌, ◌^◌, ◌∷◌, [], ℕ, IfOk, IfSome, OnOk, MatchOption};
ghost use Rattle.kit_check.specs.Digits.{AddsDigits, AreDigitsAfter, IsNumberIn, IsNumberedName};

use or_geom::{Memory, Name};
use std::alloc::Global;

/// How many digits the name of the windows has.
const DIGITS: usize = 23;

/// The number that the digit writes after those of which the number is known. None where it is 2^64 or more, or the
/// byte is no digit.
fn number_with(before: u64, digit: u8) -> Option<u64>
    ensures { MatchOption result ((n : ℕ) → n < 2 ^ 64 → AreDigitsAfter before (digit ∷ []) n
        → ⊥) (AreDigitsAfter before (digit ∷ [])) }
{
    if digit < b'0' || b'9' < digit {
        return None;
    }
    before.checked_mul(10)?.checked_add(u64::from(digit - b'0'))
}

/// The number that digits write after those of which the number is known. None where it is 2^64 or more, or one is no
/// digit.
fn number_after(before: u64, digits: &[u8]) -> Option<u64>
    ensures is { MatchOption result ((n : ℕ) → n < 2 ^ 64 → AreDigitsAfter before digits.now n
        → ⊥) (AreDigitsAfter before digits.now) }
    ensures small { IfSome result (λ n. n < 2 ^ 64) }
{
    match digits.split_first() {
        None => Some(before),
        Some((digit, others)) => match number_with(before, *digit) {
            None => None,
            Some(next) => number_after(next, others),
        },
    }
}

/// The number behind `w` or `W` with which a text begins, if it has 23 digits and is less than 2^64.
pub fn number_in(text: &[u8]) -> Option<u64>
    ensures { MatchOption result ((n : ℕ) → IsNumberIn text.now n → ⊥) (IsNumberIn text.now) }
{
    match text.split_first() {
        None => None,
        Some((first, others)) => {
            if *first != b'w' && *first != b'W' {
                return None;
            }
            if others.len() < DIGITS {
                return None;
            }
            number_after(0, &others[..DIGITS])
        }
    }
}

/// Adds so many digits of the number.
fn add_digits(count: usize, number: u64, out: &mut Vec<u8>) -> Result<(), Memory>
    requires { number < 10 ^ count }
    ensures { OnOk result (AddsDigits count number out.old.items out.new.items) }
{
    if count == 0 {
        return Ok(());
    }
    add_digits(count - 1, number / 10, out)?;
    Ok(out.push(b'0' + (number % 10) as u8)?)
}

/// `w` and the digits of the number.
pub fn numbered_name(alloc: Global, number: u64) -> Result<Name, Memory>
    ensures { IfOk result (IsNumberedName number) }
{
    let mut bytes = Vec::new(alloc);
    bytes.push(b'w')?;
    add_digits(DIGITS, number, &mut bytes)?;
    Ok(Name::from_vec(bytes))
}
