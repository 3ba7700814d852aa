ghost use Rattle.std.specs.Prelude.{◌≡◌, Contains, IsTrue, Some};
ghost use Rattle.tile_checker.specs.Earliest.{AreNotEarlier, IsEarliestWith, IsOfFirst, IsOfRule};

use crate::violation::Violation;
use or_geom::Shape;
use std::cmp::Ordering;

/// Of what is kept and another violation, the one that comes first in a report.
fn earlier_of(kept: Option<Violation>, other: Violation) -> Violation
    ensures { IsEarliestWith kept (λ v. other ≡ v) (Some result) }
{
    let Some(least) = kept else {
        return other;
    };
    match least.cmp(&other) {
        Ordering::Less => least,
        Ordering::Equal => least,
        Ordering::Greater => other,
    }
}

/// Of what is kept and what another found, the one that comes first in a report.
pub fn earlier(kept: Option<Violation>, other: Option<Violation>) -> Option<Violation>
    ensures { IsEarliestWith kept (λ v. other ≡ Some v) result }
{
    let Some(violation) = other else {
        return kept;
    };
    Some(earlier_of(kept, violation))
}

/// Of what is kept and a list of violations, the one that comes first in a report.
pub fn earliest_of(kept: Option<Violation>, list: &[Violation]) -> Option<Violation>
    ensures { IsEarliestWith kept (Contains list.now) result }
{
    let mut least = kept;
    for violation in list {
        least = Some(earlier_of(least, *violation));
    }
    least
}

/// Whether all that breaks the rule of this number comes after what is kept.
pub fn is_past(kept: Option<Violation>, number: u32) -> bool
    ensures { IsTrue result → AreNotEarlier kept (IsOfRule number) }
{
    let Some(least) = kept else {
        return false;
    };
    if least.rule < number {
        return true;
    }
    false
}

/// Whether all that breaks the rule of this number and has this first shape comes after what is kept.
pub fn is_past_first(kept: Option<Violation>, number: u32, first: Shape) -> bool
    ensures { IsTrue result → AreNotEarlier kept (IsOfFirst number first) }
{
    let Some(least) = kept else {
        return false;
    };
    if least.rule != number {
        return false;
    }
    match least.first.cmp(&first) {
        Ordering::Less => true,
        Ordering::Equal => false,
        Ordering::Greater => false,
    }
}
