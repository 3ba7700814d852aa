ghost use Rattle.std.specs.Prelude.{◌≡◌, ℕ, ◌+◌, ◌*◌, ◌^◌, min, nat_abs};
ghost use Rattle.cell_hierarchy.specs.Counts.{Total, IsSaturated, none, sum, times};

use crate::counts::SaturatedCounts;

/// Where a number is saturated.
const MOST: u64 = 4_294_967_296;

/// Nothing.
pub fn nothing() -> SaturatedCounts
    ensures { IsSaturated none result }
{
    SaturatedCounts {
        shapes: 0,
        labels: 0,
    }
}

fn saturated_sum(a: u64, b: u64) -> u64
    ensures { (x y : ℕ) → a ≡ min x (2 ^ 32) → b ≡ min y (2 ^ 32) → result ≡ min (x + y) (2 ^ 32) }
{
    a.saturating_add(b).min(MOST)
}

fn saturated_product(n: u64, each: u64) -> u64
    ensures { (x : ℕ) → each ≡ min x (2 ^ 32) → result ≡ min (n * x) (2 ^ 32) }
{
    n.saturating_mul(each).min(MOST)
}

/// The counts of both.
pub fn sum_of(a: SaturatedCounts, b: SaturatedCounts) -> SaturatedCounts
    ensures { (x y : Total) → IsSaturated x a → IsSaturated y b → IsSaturated (sum x y) result }
{
    SaturatedCounts {
        shapes: saturated_sum(a.shapes, b.shapes),
        labels: saturated_sum(a.labels, b.labels),
    }
}

/// The counts of an array of so many columns and rows, where each of its items has `each`.
pub fn array_of(columns: i16, rows: i16, each: SaturatedCounts) -> SaturatedCounts
    ensures { (x : Total) → IsSaturated x each → IsSaturated (times (nat_abs columns * nat_abs rows) x) result }
{
    let items = u64::from(columns.unsigned_abs()) * u64::from(rows.unsigned_abs());
    SaturatedCounts {
        shapes: saturated_product(items, each.shapes),
        labels: saturated_product(items, each.labels),
    }
}
