ghost use Rattle.std.specs.Prelude.{◌≡◌, ◌↔◌, ◌<◌, IsTrue, IfOk, IfErr, MatchOption, Some, length, map, slice_get};
ghost use Rattle.std.specs.List.Sorted.{IsStrictlySortedBy};
ghost use Rattle.or_geom.specs.ShapeOrder.{shape_order};
ghost use Rattle.cell_hierarchy.specs.Plain.{plain_label};
ghost use Rattle.leaf_shapes.specs.Candidates.{IsFirstCandidate};
ghost use Rattle.leaf_shapes.specs.declared.fit.CellSize.{CellSize};
ghost use Rattle.leaf_shapes.specs.Demands.{plain_demand, role_demands};
ghost use Rattle.leaf_shapes.specs.Pins.{AreLeafPins, IsDemanded, IsMet, IsPinFault, FirstLacks, LacksLayer};
ghost use Rattle.leaf_shapes.specs.Pins.{drawing_of};
ghost use Rattle.or_geom.specs.Gathering.{SomeHas};

use crate::candidate::{WantedShape, first_candidate, has_candidate};
use crate::demand::{PinRequirement, demands};
use crate::fault::PinFault;
use crate::fit::CellSize;
use cell_hierarchy::Label;
use cell_roles::Role;
use or_geom::{Items, Memory, Name, Rect, Shape};
use shape_bins::Bins;
use std::alloc::Global;
use tech_rules::Wire;

/// A pin of a leaf cell: its name, the place of its layer in the technology's list, and its rectangle in the cell, in
/// nanometres.
#[derive(Debug, Drop)]
pub struct LeafPin {
    pub pin: Name,
    pub layer: u16,
    pub rect: Rect,
}

/// The pin's shape for the demand: of the shapes that its labels bind the first that is as demanded.
fn demanded_shape(
    wire: &Wire,
    size: CellSize,
    bins: &Bins,
    labels: &[Label],
    demand: PinRequirement,
) -> Option<Shape>
    requires { IsStrictlySortedBy shape_order bins.now }
    ensures { let cell = drawing_of wire.now size bins.now labels.now in let d = plain_demand demand in MatchOption
        result (IsMet cell d → ⊥) (IsFirstCandidate (IsDemanded cell d) cell.shapes cell.labels d.pin) }
{
    let wanted = WantedShape::Fitting {
        layer: demand.metal.layer(wire),
        fit: demand.fit,
        size,
        wire: wire.width,
    };
    first_candidate(bins, labels, demand.pin, wanted)
}

/// Whether the texts are the same.
fn is_same(text: &str, other: &str) -> bool
    ensures { IsTrue result ↔ (text.now ≡ other.now) }
{
    text.as_bytes() == other.as_bytes()
}

/// Whether the demand is the pin's and none of the shapes that its labels bind is on the layer.
fn lacks_layer(
    wire: &Wire,
    bins: &Bins,
    labels: &[Label],
    pin: &str,
    demand: PinRequirement,
) -> bool
    requires { IsStrictlySortedBy shape_order bins.now }
    ensures { IsTrue result ↔ LacksLayer wire.now bins.now (map plain_label labels.now) pin.now (plain_demand demand) }
{
    if !is_same(demand.pin, pin) {
        return false;
    }
    let layer = demand.metal.layer(wire);
    !has_candidate(bins, labels, pin, WantedShape::OnLayer(layer))
}

/// The demand at an index.
fn demand_at(demands: &[PinRequirement], index: usize) -> PinRequirement
    requires { index < length demands.now }
    ensures { slice_get demands.now index ≡ Some result }
{
    demands[index]
}

/// Whether for one of the pin's demands none of the shapes that its labels bind is on the layer.
fn is_off_layer(
    wire: &Wire,
    bins: &Bins,
    labels: &[Label],
    pin: &str,
    demands: &[PinRequirement],
) -> bool
    requires { IsStrictlySortedBy shape_order bins.now }
    ensures { IsTrue result ↔ SomeHas (LacksLayer wire.now bins.now (map plain_label labels.now) pin.now)
        (map plain_demand demands.now) }
{
    for index in 0..demands.len() {
        if lacks_layer(wire, bins, labels, pin, demand_at(demands, index)) {
            return true;
        }
    }
    false
}

/// What is wrong with a pin of which some demand isn't met.
fn pin_fault(
    alloc: Global,
    wire: &Wire,
    bins: &Bins,
    labels: &[Label],
    demands: &[PinRequirement],
    pin: &str,
) -> PinFault
    requires { IsStrictlySortedBy shape_order bins.now }
    ensures { (size : CellSize) → FirstLacks (drawing_of wire.now size bins.now labels.now)
        (map plain_demand demands.now) pin.now
        → IsPinFault (drawing_of wire.now size bins.now labels.now) (map plain_demand demands.now) result }
{
    let Ok(name) = Name::from_bytes(alloc, pin.as_bytes()) else {
        return PinFault::Memory;
    };
    if !has_candidate(bins, labels, pin, WantedShape::Any) {
        return PinFault::PinMissing { pin: name };
    }
    if is_off_layer(wire, bins, labels, pin, demands) {
        return PinFault::PinLayer { pin: name };
    }
    PinFault::EdgePin { pin: name }
}

fn leaf_pin(alloc: Global, demand: PinRequirement, shape: Shape) -> Result<LeafPin, Memory>
    ensures { IfOk result (λ pin. (pin.pin ≡ demand.pin.now) × (pin.layer ≡ shape.layer) × (pin.rect ≡ shape.rect)) }
{
    Ok(LeafPin {
        pin: Name::from_bytes(alloc, demand.pin.as_bytes())?,
        layer: shape.layer,
        rect: shape.rect,
    })
}

/// The shapes of the pins of a cell of the role, one for each of its demands, in order. `bins` has the cell's flat
/// shapes and `labels` are its flat labels in order. The first pin that lacks one is refused: `PinMissing` where its
/// labels bind no shape, else `PinLayer` where for one of its demands none of these is on the layer, else `EdgePin`.
pub fn pin_shapes(
    alloc: Global,
    role: Role,
    wire: &Wire,
    size: CellSize,
    bins: &Bins,
    labels: &[Label],
) -> Result<Items<LeafPin>, PinFault>
    requires { IsStrictlySortedBy shape_order bins.now }
    ensures pins { IfOk result (AreLeafPins (drawing_of wire.now size bins.now labels.now) (role_demands role)) }
    ensures fault { IfErr result (IsPinFault (drawing_of wire.now size bins.now labels.now) (role_demands role)) }
{
    let all = demands(role);
    let mut pins = Items::new(alloc);
    for index in 0..all.len() {
        let demand = demand_at(all, index);
        let Some(shape) = demanded_shape(wire, size, bins, labels, demand) else {
            return Err(pin_fault(alloc, wire, bins, labels, all, demand.pin));
        };
        let pin = leaf_pin(alloc, demand, shape)?;
        pins.push(pin)?;
    }
    Ok(pins)
}
