ghost use Rattle.std.specs.Prelude.{◌≡◌, ◌↔◌, ◌<ℤ◌, ◌≤ℤ◌, IsTrue, OnOk, MatchOption};
ghost use Rattle.std.specs.List.Sorted.{IsStrictlySortedBy};
ghost use Rattle.or_geom.specs.Distance.{IsReachable};
ghost use Rattle.or_geom.specs.Adds.{Adds};
ghost use Rattle.or_geom.specs.Gathering.{SomeGives};
ghost use Rattle.or_geom.specs.Reachable.{AreReachable};
ghost use Rattle.or_geom.specs.ShapeOrder.{shape_order};
ghost use Rattle.shape_bins.specs.Layers.{rects_on};
ghost use Rattle.tile_checker.specs.Breaks.{AreNear};
ghost use Rattle.tile_checker.specs.Found.{AreOnLayersOf, IsSpaceFound};
ghost use Rattle.tech_rules.specs.declared.tech.Rule.TheVariants as kind;
ghost use Rattle.std.specs.Int.{int_max, int_min};
ghost use Rattle.tile_checker.specs.Firsts.{IsAt, IsPartner, HasNoPartner, ArePartners, ArePartnersIn};
ghost use Rattle.tile_checker.specs.Seen.{AreTrueNotes};
ghost use Rattle.tile_checker.specs.Tiles.{IsFromIn, IsPairAt, IsPartIn};

use crate::candidates::list_candidates;
use crate::clear::{ClearArea, filled_around, lies_clear};
use crate::enclose::grown;
use crate::first::{First, shape_at};
use crate::minimum::Minimum;
use crate::notes::Notes;
use crate::owner::owns_pair;
use crate::violation::Violation;
use or_geom::{Memory, Rect, Shape, dist2, gap_box, joined};
use shape_bins::Bins;

/// A space rule with its number.
#[derive(Clone, Copy)]
pub struct SpaceRule {
    pub number: u32,
    pub layer: u16,
    pub other: u16,
    pub min: Minimum,
}

/// Whether the rectangles aren't joined and are nearer than the minimum.
fn are_near(a: Rect, b: Rect, min: Minimum) -> bool
    requires first { IsReachable a }
    requires second { IsReachable b }
    ensures { IsTrue result ↔ AreNear min.value a b }
{
    if joined(a, b) {
        return false;
    }
    if dist2(a, b) < min.square() {
        return true;
    }
    false
}

/// The layer whose shapes may come after a shape of this layer and break the rule together with it. The order of shapes
/// is first that of their layers, so this layer is the lesser one of the rule's.
fn partner_of(rule: SpaceRule, layer: u16) -> Option<u16>
    ensures { MatchOption result (HasNoPartner rule layer) (IsPartner rule layer) }
{
    if layer == rule.layer.min(rule.other) {
        return Some(rule.layer.max(rule.other));
    }
    None
}

/// Whether two shapes of the rule's layers break it. Two shapes of one layer don't where that layer covers the gap
/// between them.
fn breaks_space(bins: &Bins, rule: SpaceRule, a: Shape, b: Shape) -> bool
    requires on { AreOnLayersOf rule a b }
    requires first { IsReachable a.rect }
    requires second { IsReachable b.rect }
    ensures { IsTrue result ↔ IsSpaceFound rule (rects_on rule.layer bins.now) a b }
{
    if !are_near(a.rect, b.rect, rule.min) {
        return false;
    }
    if a.layer != b.layer {
        return true;
    }
    !bins.box_covered(rule.layer, gap_box(a.rect, b.rect))
}

/// Where an interval ends that begins here and goes as far as both sides, but is one unit long at least.
fn end_of(begin: i64, side: i64, other: i64) -> i64
    requires { begin <ℤ int_max side other }
    ensures longer { begin <ℤ result }
    ensures to { int_min side other ≤ℤ result }
{
    let end = side.min(other);
    if begin < end {
        return end;
    }
    begin + 1
}

/// The part of a rectangle that those meet which share with it an area whose lower left corner the tile has.
fn part_in(tile: Rect, rect: Rect) -> Rect
    ensures { IsPartIn tile rect result }
{
    let x1 = rect.x1.max(tile.x1);
    let y1 = rect.y1.max(tile.y1);
    let x2 = end_of(x1, rect.x2, tile.x2);
    let y2 = end_of(y1, rect.y2, tile.y2);
    Rect { x1, y1, x2, y2 }
}

/// Adds what a shape breaks together with those at the places behind its own, as far as the tile owns it.
fn add_pairs(
    bins: &Bins,
    rule: SpaceRule,
    tile: Rect,
    first: First,
    places: &[usize],
    out: &mut Vec<Violation>,
) -> Result<(), Memory>
    requires reach { AreReachable bins.now }
    requires at { IsAt bins.now first }
    requires partners { ArePartners rule bins.now first.shape places.now }
    ensures { OnOk result (Adds out.old.items out.new.items
        (SomeGives (IsPairAt rule bins.now tile first) places.now)) }
{
    let shapes = bins.shapes();
    for place in places {
        if *place <= first.place {
            continue;
        }
        let second = shape_at(shapes, *place);
        if !breaks_space(bins, rule, first.shape, second) {
            continue;
        }
        if !owns_pair(tile, rule.min, first.shape, second) {
            continue;
        }
        out.push(Violation {
            rule: rule.number,
            first: first.shape,
            second: Some(second),
        })?;
    }
    Ok(())
}

/// Lists the places of the partner's shapes that meet the area, but for some that break no rule of this minimum with
/// the first shape. These lie with it in one box, so that their layer covers the gap between them, or are no nearer
/// than the minimum, as all shapes outside of a box are whose clearance isn't less. A box of such clearance is kept in
/// the notes, since the next shapes often lie in it too. No other is: the bins may know a larger one round these.
fn list_partners(
    bins: &Bins,
    partner: u16,
    min: Minimum,
    first: Shape,
    tile: Rect,
    area: Rect,
    notes: &mut Notes,
) -> Result<(), Memory>
    requires seen { AreTrueNotes bins.now notes.old }
    ensures seen { AreTrueNotes bins.now notes.new }
    ensures found { notes.new.found ≡ notes.old.found }
    ensures partners { OnOk result (ArePartnersIn min.value bins.now partner first area notes.new.near.items) }
{
    notes.near.clear();
    if partner == first.layer {
        if lies_clear(bins, first, min, notes.clear) {
            return Ok(());
        }
        if let Some(filled) = filled_around(bins, first) {
            if min.value <= filled.clearance {
                notes.clear = Some(ClearArea {
                    layer: first.layer,
                    filled,
                });
                return Ok(());
            }
            return bins.add_outside(partner, area, filled.rect, &mut notes.near);
        }
    }
    list_candidates(bins, partner, tile, area, notes)
}

/// Adds the pairs of shapes that break the rule, whose first is this one and which the tile owns.
pub fn add_spaces(
    bins: &Bins,
    rule: SpaceRule,
    tile: Rect,
    first: First,
    notes: &mut Notes,
) -> Result<(), Memory>
    requires rises { IsStrictlySortedBy shape_order bins.now }
    requires reach { AreReachable bins.now }
    requires at { IsAt bins.now first }
    requires seen { AreTrueNotes bins.now notes.old }
    ensures seen { AreTrueNotes bins.now notes.new }
    ensures adds { OnOk result (Adds notes.old.found.items notes.new.found.items
        (IsFromIn rule.number (kind.Space rule.layer rule.other rule.min.value) bins.now tile first)) }
{
    let Some(partner) = partner_of(rule, first.shape.layer) else {
        return Ok(());
    };
    let area = part_in(tile, grown(first.shape.rect, rule.min));
    list_partners(bins, partner, rule.min, first.shape, tile, area, notes)?;
    add_pairs(bins, rule, tile, first, &notes.near, &mut notes.found)
}
