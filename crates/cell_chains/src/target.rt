ghost use Rattle.std.specs.Prelude.{◌≡◌, ◌≢◌, ◌<◌, List, ℕ, length, Some, Contains, All, IfOk};
ghost use Rattle.std.specs.List.{AllPairs};
ghost use Rattle.cell_chains.specs.Hierarchy.{referred_name};
ghost use Rattle.cell_chains.specs.Numbering.{texts, referred_names, Rises};
ghost use Rattle.cell_chains.specs.Listing.{ArePositions, LeadsTo, AreTargets};

use crate::names::{node_of, referred};
use gds_library::Element;
use or_geom::{Items, Memory};
use std::alloc::Global;

/// For each node of the order its place there; there are `count` nodes.
pub fn positions(alloc: Global, order: &[usize], count: usize) -> Result<Vec<usize>, Memory>
    requires within { All (λ node. node < count) order.now }
    requires once { AllPairs (λ first second. first ≢ second) order.now }
    ensures { IfOk result (λ positions. ArePositions order.now count positions.items) }
{
    let mut positions = vec![in alloc; 0; count]?;
    for (place, node) in order.iter().enumerate() {
        positions[*node] = place;
    }
    Ok(positions)
}

/// The position of the node to which an element refers; 0 where it refers to none.
fn target_of(names: &[&[u8]], positions: &[usize], element: &Element) -> usize
    requires rises { Rises (texts names.now) }
    requires sized { length positions.now ≡ length names.now }
    requires there { (name : List ℕ) → referred_name element.now ≡ Some name → Contains (texts names.now) name }
    ensures { (name : List ℕ) → referred_name element.now ≡ Some name
        → LeadsTo (texts names.now) positions.now name result }
{
    let Some(name) = referred(element) else {
        return 0;
    };
    let Some(node) = node_of(names, name) else {
        unreachable!()
    };
    positions[node]
}

/// For each element the position of the node to which it refers; 0 where it refers to none.
pub fn targets(
    alloc: Global,
    names: &[&[u8]],
    positions: &[usize],
    elements: &[Element],
) -> Result<Items<usize>, Memory>
    requires rises { Rises (texts names.now) }
    requires sized { length positions.now ≡ length names.now }
    requires there { (name : List ℕ) → Contains (referred_names elements.now) name → Contains (texts names.now) name }
    ensures { IfOk result (AreTargets (texts names.now) positions.now elements.now) }
{
    let mut targets = Items::new(alloc);
    for element in elements {
        targets.push(target_of(names, positions, element))?;
    }
    Ok(targets)
}
