ghost use Rattle.std.specs.Prelude.{◌≡◌, ◌≢◌, [], IfOk};
ghost use Rattle.std.specs.Str.{IsAscii};
ghost use Rattle.std.specs.List.{AllByRecursion};
ghost use Rattle.or_geom.specs.Place.{IsNearPoint};
ghost use Rattle.gds_library.specs.Writable.{IsWritableProp};
ghost use Rattle.cell_chains.specs.Instances.{reference_name, array_name};
ghost use Rattle.cell_hierarchy.specs.Grid.{IsWritableGrid, IsSpotOf, place_in};
ghost use Rattle.cell_hierarchy.specs.Placed.{path_join, IsPlacedBelow};

use crate::arena::text_in;
use crate::grid::{ItemGrid, Spot, place_at};
use bumpalo::Bump;
use cell_chains::{array_name, reference_name};
use gds_library::Prop;
use or_geom::{Memory, Name, Place};
use std::alloc::Global;

/// Where a cell stands below the top: the names of the instances from the top, separated by `/`, and how it is turned
/// and moved in the top's coordinates. Where no labels are kept the names are left out.
#[derive(Clone, Copy)]
pub struct Placement<'b> {
    pub path: &'b str,
    pub place: Place,
}

/// The path and below it the name, in the arena.
fn path_below<'b>(alloc: Global, bump: &'b Bump, path: &str, name: &Name) -> Result<&'b str, Memory>
    requires path { IsAscii path.now }
    requires name { IsAscii name.now }
    requires some { name.now ≢ [] }
    ensures { IfOk result (λ text. text.now ≡ path_join path.now name.now) }
{
    if path.is_empty() {
        return text_in(bump, name.as_bytes());
    }
    let mut bytes = Vec::from_slice(alloc, path.as_bytes())?;
    bytes.push(b'/')?;
    bytes.extend_from_slice(name.as_bytes())?;
    text_in(bump, &bytes)
}

/// The reference that is the element at index `n` of a cell that stands at `outer`. Coordinates are within 2^40.
pub fn reference_below<'b>(
    alloc: Global,
    bump: &'b Bump,
    keeps_labels: bool,
    outer: &Placement<'b>,
    n: usize,
    props: &[Prop],
    place: Place,
) -> Result<Placement<'b>, Memory>
    requires outer { IsNearPoint outer.now.place.at }
    requires near { IsNearPoint place.at }
    requires path { IsAscii outer.now.path.now }
    requires writable { AllByRecursion IsWritableProp props.now }
    ensures { IfOk result (IsPlacedBelow keeps_labels outer.now (reference_name n props.now) place) }
{
    let place = outer.place.then(place);
    if !keeps_labels {
        return Ok(Placement {
            path: outer.path,
            place,
        });
    }
    let name = reference_name(alloc, n, props)?;
    let path = path_below(alloc, bump, outer.path, &name)?;
    Ok(Placement { path, place })
}

/// An item of the array that is the element at index `n` of a cell that stands at `outer`. Coordinates are within 2^40.
pub fn item_below<'b>(
    alloc: Global,
    bump: &'b Bump,
    keeps_labels: bool,
    outer: &Placement<'b>,
    n: usize,
    grid: ItemGrid,
    spot: Spot,
) -> Result<Placement<'b>, Memory>
    requires outer { IsNearPoint outer.now.place.at }
    requires path { IsAscii outer.now.path.now }
    requires writable { IsWritableGrid grid }
    requires spot { IsSpotOf grid spot }
    ensures { IfOk result (IsPlacedBelow keeps_labels outer.now (array_name n spot.column spot.row)
        (place_in grid spot.column spot.row)) }
{
    let place = outer.place.then(place_at(grid, spot));
    if !keeps_labels {
        return Ok(Placement {
            path: outer.path,
            place,
        });
    }
    let name = array_name(alloc, n, spot.column, spot.row)?;
    let path = path_below(alloc, bump, outer.path, &name)?;
    Ok(Placement { path, place })
}
