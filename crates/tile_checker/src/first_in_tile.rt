ghost use Rattle.std.specs.Prelude.{IfOk};
ghost use Rattle.std.specs.List.Sorted.{IsStrictlySortedBy};
ghost use Rattle.or_geom.specs.Distance.{IsReachable};
ghost use Rattle.or_geom.specs.Reachable.{AreReachable};
ghost use Rattle.or_geom.specs.ShapeOrder.{shape_order};
ghost use Rattle.tile_checker.specs.Earliest.{IsEarliestWith};
ghost use Rattle.tile_checker.specs.Firsts.{IsAt};
ghost use Rattle.tile_checker.specs.Minimum.{HasMinimum};
ghost use Rattle.tile_checker.specs.Tiles.{AreFirstPlaces, IsFromIn, IsViolationIn};
ghost use Rattle.tile_checker.specs.Seen.{AreTrueNotes};

use crate::earliest::{earliest_of, is_past, is_past_first};
use crate::first::{First, shape_at};
use crate::in_tile::{add_violations, list_firsts};
use crate::notes::Notes;
use crate::violation::Violation;
use or_geom::{Memory, Rect};
use shape_bins::Bins;
use tech_rules::Rule;

/// The first of what is kept and of what breaks the rule, has this first shape, and is owned by the tile. A shape that
/// has only later violations isn't looked at.
fn first_of_shape(
    bins: &Bins,
    number: u32,
    rule: &Rule,
    tile: Rect,
    first: First,
    notes: &mut Notes,
    kept: Option<Violation>,
) -> Result<Option<Violation>, Memory>
    requires minimum { HasMinimum rule.now }
    requires rises { IsStrictlySortedBy shape_order bins.now }
    requires reach { AreReachable bins.now }
    requires at { IsAt bins.now first }
    requires seen { AreTrueNotes bins.now notes.old }
    ensures seen { AreTrueNotes bins.now notes.new }
    ensures first { IfOk result (IsEarliestWith kept (IsFromIn number rule.now bins.now tile first)) }
{
    if is_past_first(kept, number, first.shape) {
        return Ok(kept);
    }
    notes.found.clear();
    add_violations(bins, number, rule, tile, first, notes)?;
    Ok(earliest_of(kept, &notes.found))
}

/// The first of what is kept and of what breaks the rule, has its first shape at one of the places, and is owned by the
/// tile.
fn first_of_places(
    bins: &Bins,
    number: u32,
    rule: &Rule,
    tile: Rect,
    places: &[usize],
    notes: &mut Notes,
    kept: Option<Violation>,
) -> Result<Option<Violation>, Memory>
    requires minimum { HasMinimum rule.now }
    requires rises { IsStrictlySortedBy shape_order bins.now }
    requires reach { AreReachable bins.now }
    requires places { AreFirstPlaces rule.now bins.now tile places.now }
    requires seen { AreTrueNotes bins.now notes.old }
    ensures seen { AreTrueNotes bins.now notes.new }
    ensures first { IfOk result (IsEarliestWith kept (IsViolationIn number rule.now bins.now tile)) }
{
    let shapes = bins.shapes();
    let mut least = kept;
    for place in places {
        let first = First {
            place: *place,
            shape: shape_at(shapes, *place),
        };
        least = first_of_shape(bins, number, rule, tile, first, notes, least)?;
    }
    Ok(least)
}

/// The first of what is kept and of what breaks the rule and the tile owns. `places` is a list to use again.
pub fn first_of_rule(
    bins: &Bins,
    number: u32,
    rule: &Rule,
    tile: Rect,
    places: &mut Vec<usize>,
    notes: &mut Notes,
    kept: Option<Violation>,
) -> Result<Option<Violation>, Memory>
    requires minimum { HasMinimum rule.now }
    requires rises { IsStrictlySortedBy shape_order bins.now }
    requires reach { AreReachable bins.now }
    requires tile { IsReachable tile }
    requires seen { AreTrueNotes bins.now notes.old }
    ensures seen { AreTrueNotes bins.now notes.new }
    ensures first { IfOk result (IsEarliestWith kept (IsViolationIn number rule.now bins.now tile)) }
{
    if is_past(kept, number) {
        return Ok(kept);
    }
    list_firsts(bins, rule, tile, places)?;
    first_of_places(bins, number, rule, tile, places, notes, kept)
}
