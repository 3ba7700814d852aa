ghost use Rattle.std.specs.Prelude.{◌≡◌, ℕ, ◌<◌, List, length, Some};
ghost use Rattle.cell_chains.specs.Hierarchy.{referred_name};
ghost use Rattle.cell_hierarchy.specs.CountsBelow.{IsBelowElement, AreBelowFrom, HaveCounts};
ghost use Rattle.cell_hierarchy.specs.Counts.{Total, IsSaturated};

use crate::arithmetic::{array_of, nothing, sum_of};
use crate::counts::SaturatedCounts;
use gds_library::Element;

/// What stands below an element, where `counts` has at the target's place what stands below each of its items.
fn below_element(element: &Element, target: usize, counts: &[SaturatedCounts]) -> SaturatedCounts
    requires { (name : List ℕ) → referred_name element.now ≡ Some name → target < length counts.now }
    ensures { (total : Total) → IsBelowElement counts.now target element.now total → IsSaturated total result }
{
    match element {
        Element::Sref { .. } => counts[target],
        Element::Aref { columns, rows, .. } => array_of(*columns, *rows, counts[target]),
        Element::Boundary { .. } | Element::Path { .. } | Element::Text { .. } => nothing(),
    }
}

/// What stands below the references among the elements. `targets` has for each reference a place of `counts`, where its
/// structure's counts stand.
pub fn below(elements: &[Element], targets: &[usize], counts: &[SaturatedCounts]) -> SaturatedCounts
    requires sized { length targets.now ≡ length elements.now }
    requires known { HaveCounts elements.now targets.now counts.now }
    ensures { (total : Total) → AreBelowFrom counts.now targets.now 0 elements.now total → IsSaturated total result }
{
    let mut sum = nothing();
    for (place, element) in elements.iter().enumerate() {
        sum = sum_of(sum, below_element(element, targets[place], counts));
    }
    sum
}
