ghost use Rattle.std.specs.Prelude.{◌↔◌, IsTrue, OnOk};
ghost use Rattle.or_geom.specs.Distance.{IsReachable};
ghost use Rattle.tile_checker.specs.Breaks.{IsGrown};
ghost use Rattle.or_geom.specs.Adds.{Adds};
ghost use Rattle.or_geom.specs.Gathering.{SomeHas};
ghost use Rattle.or_geom.specs.Reachable.{AreReachable};
ghost use Rattle.tech_rules.specs.declared.tech.Rule.TheVariants as kind;
ghost use Rattle.shape_bins.specs.Layers.{IsCoveredBy};
ghost use Rattle.tile_checker.specs.Firsts.{IsAt, IsFrom};

use crate::first::First;
use crate::minimum::Minimum;
use crate::violation::Violation;
use or_geom::{Items, Memory, Rect};
use shape_bins::Bins;

/// An enclose rule with its number.
#[derive(Clone, Copy)]
pub struct EncloseRule<'t> {
    pub number: u32,
    pub layer: u16,
    pub by: &'t Items<u16>,
    pub min: Minimum,
}

/// The rectangle, grown by the minimum on all sides.
pub fn grown(rect: Rect, min: Minimum) -> Rect
    requires { IsReachable rect }
    ensures { IsGrown min.value rect result }
{
    Rect {
        x1: rect.x1 - min.value,
        y1: rect.y1 - min.value,
        x2: rect.x2 + min.value,
        y2: rect.y2 + min.value,
    }
}

/// Whether one of the layers covers the area.
fn is_enclosed(bins: &Bins, area: Rect, layers: &[u16]) -> bool
    ensures { IsTrue result ↔ SomeHas (λ layer. IsCoveredBy layer bins.now area) layers.now }
{
    for layer in layers {
        if bins.box_covered(*layer, area) {
            return true;
        }
    }
    false
}

/// Adds the shape if it is of the layer and none of the rule's layers `by` encloses it.
pub fn add_encloses(
    bins: &Bins,
    rule: &EncloseRule,
    first: First,
    out: &mut Vec<Violation>,
) -> Result<(), Memory>
    requires reach { AreReachable bins.now }
    requires at { IsAt bins.now first }
    ensures { OnOk result (Adds out.old.items out.new.items
        (IsFrom rule.now.number (kind.Enclose rule.now.layer rule.now.by.now rule.now.min.value) bins.now first)) }
{
    if first.shape.layer != rule.layer {
        return Ok(());
    }
    if is_enclosed(bins, grown(first.shape.rect, rule.min), rule.by.as_slice()) {
        return Ok(());
    }
    Ok(out.push(Violation {
        rule: rule.number,
        first: first.shape,
        second: None,
    })?)
}
