ghost use Rattle.std.specs.Prelude.{OnOk};
ghost use Rattle.std.specs.List.Sorted.{IsStrictlySortedBy};
ghost use Rattle.or_geom.specs.Adds.{Adds};
ghost use Rattle.or_geom.specs.Gathering.{SomeGives};
ghost use Rattle.or_geom.specs.ShapeOrder.{shape_order};
ghost use Rattle.or_geom.specs.Distance.{IsReachable};
ghost use Rattle.or_geom.specs.Reachable.{AreReachable};
ghost use Rattle.tech_rules.specs.declared.tech.Rule.TheVariants as kind;
ghost use Rattle.tile_checker.specs.Minimum.{HasMinimum};
ghost use Rattle.tile_checker.specs.Firsts.{IsAt, ArePlaces};
ghost use Rattle.tile_checker.specs.Tiles.{AreFirstPlaces, IsFromIn, IsFromPlace, IsViolationIn};
ghost use Rattle.tile_checker.specs.Seen.{AreTrueNotes};

use crate::enclose::{EncloseRule, add_encloses, grown};
use crate::first::{First, shape_at};
use crate::minimum::Minimum;
use crate::notes::Notes;
use crate::owner::has_corner;
use crate::space::{SpaceRule, add_spaces};
use crate::violation::Violation;
use crate::width::{WidthRule, add_widths};
use or_geom::{Memory, Rect};
use shape_bins::Bins;
use tech_rules::Rule;

/// Lists the places of all first shapes of what breaks the rule and the tile owns, and perhaps of others. The order of
/// shapes is first that of their layers, so the first shape of a space rule is of the lesser layer.
pub fn list_firsts(
    bins: &Bins,
    rule: &Rule,
    tile: Rect,
    firsts: &mut Vec<usize>,
) -> Result<(), Memory>
    requires minimum { HasMinimum rule.now }
    requires tile { IsReachable tile }
    ensures { OnOk result (AreFirstPlaces rule.now bins.now tile firsts.new.items) }
{
    firsts.clear();
    match rule {
        Rule::Width { layer, .. } => bins.add_near(*layer, tile, firsts),
        Rule::Enclose { layer, .. } => bins.add_near(*layer, tile, firsts),
        Rule::Space { layer, other, min } => {
            let area = grown(tile, Minimum { value: *min });
            bins.add_near((*layer).min(*other), area, firsts)
        }
    }
}

/// Adds the shape if it is of the layer and too narrow, and the tile has its corner.
fn add_own_widths(
    bins: &Bins,
    rule: WidthRule,
    tile: Rect,
    first: First,
    notes: &mut Notes,
) -> Result<(), Memory>
    requires reach { AreReachable bins.now }
    requires at { IsAt bins.now first }
    requires seen { AreTrueNotes bins.now notes.old }
    ensures seen { AreTrueNotes bins.now notes.new }
    ensures adds { OnOk result (Adds notes.old.found.items notes.new.found.items
        (IsFromIn rule.number (kind.Width rule.layer rule.min.value) bins.now tile first)) }
{
    if !has_corner(tile, first.shape.rect) {
        return Ok(());
    }
    add_widths(bins, rule, first, notes)
}

/// Adds the shape if it is of the layer, none of the layers `by` encloses it, and the tile has its corner.
fn add_own_encloses(
    bins: &Bins,
    rule: &EncloseRule,
    tile: Rect,
    first: First,
    out: &mut Vec<Violation>,
) -> Result<(), Memory>
    requires reach { AreReachable bins.now }
    requires at { IsAt bins.now first }
    ensures { OnOk result (Adds out.old.items out.new.items
        (IsFromIn rule.now.number (kind.Enclose rule.now.layer rule.now.by.now rule.now.min.value) bins.now
        tile first)) }
{
    if !has_corner(tile, first.shape.rect) {
        return Ok(());
    }
    add_encloses(bins, rule, first, out)
}

/// Adds what breaks the rule, has this first shape, and is owned by the tile.
pub fn add_violations(
    bins: &Bins,
    number: u32,
    rule: &Rule,
    tile: Rect,
    first: First,
    notes: &mut Notes,
) -> Result<(), Memory>
    requires minimum { HasMinimum rule.now }
    requires rises { IsStrictlySortedBy shape_order bins.now }
    requires reach { AreReachable bins.now }
    requires at { IsAt bins.now first }
    requires seen { AreTrueNotes bins.now notes.old }
    ensures seen { AreTrueNotes bins.now notes.new }
    ensures adds { OnOk result (Adds notes.old.found.items notes.new.found.items
        (IsFromIn number rule.now bins.now tile first)) }
{
    match rule {
        Rule::Width { layer, min } => {
            let width = WidthRule {
                number,
                layer: *layer,
                min: Minimum { value: *min },
            };
            add_own_widths(bins, width, tile, first, notes)
        }
        Rule::Space { layer, other, min } => {
            let space = SpaceRule {
                number,
                layer: *layer,
                other: *other,
                min: Minimum { value: *min },
            };
            add_spaces(bins, space, tile, first, notes)
        }
        Rule::Enclose { layer, by, min } => {
            let enclose = EncloseRule {
                number,
                layer: *layer,
                by,
                min: Minimum { value: *min },
            };
            add_own_encloses(bins, &enclose, tile, first, &mut notes.found)
        }
    }
}

/// Adds what breaks the rule, has its first shape at one of the places, and is owned by the tile.
fn add_of_firsts(
    bins: &Bins,
    number: u32,
    rule: &Rule,
    tile: Rect,
    firsts: &[usize],
    notes: &mut Notes,
) -> Result<(), Memory>
    requires minimum { HasMinimum rule.now }
    requires rises { IsStrictlySortedBy shape_order bins.now }
    requires reach { AreReachable bins.now }
    requires firsts { ArePlaces bins.now firsts.now }
    requires seen { AreTrueNotes bins.now notes.old }
    ensures seen { AreTrueNotes bins.now notes.new }
    ensures adds { OnOk result (Adds notes.old.found.items notes.new.found.items
        (SomeGives (IsFromPlace number rule.now bins.now tile) firsts.now)) }
{
    let shapes = bins.shapes();
    for place in firsts {
        let first = First {
            place: *place,
            shape: shape_at(shapes, *place),
        };
        add_violations(bins, number, rule, tile, first, notes)?;
    }
    Ok(())
}

/// Adds what breaks the rule and the tile owns. `firsts` is a list to use again.
pub fn add_of_rule(
    bins: &Bins,
    number: u32,
    rule: &Rule,
    tile: Rect,
    firsts: &mut Vec<usize>,
    notes: &mut Notes,
) -> Result<(), Memory>
    requires minimum { HasMinimum rule.now }
    requires rises { IsStrictlySortedBy shape_order bins.now }
    requires reach { AreReachable bins.now }
    requires tile { IsReachable tile }
    requires seen { AreTrueNotes bins.now notes.old }
    ensures seen { AreTrueNotes bins.now notes.new }
    ensures adds { OnOk result (Adds notes.old.found.items notes.new.found.items
        (IsViolationIn number rule.now bins.now tile)) }
{
    list_firsts(bins, rule, tile, firsts)?;
    add_of_firsts(bins, number, rule, tile, firsts, notes)
}
