ghost use Rattle.std.specs.Prelude.{◌≡◌, ◌<ℤ◌, IfErr, IfOk, OnOk, Some, Contains};
ghost use Rattle.std.specs.List.Sorted.{IsStrictlySortedBy};
ghost use Rattle.or_geom.specs.declared.shape.Shape.{Shape};
ghost use Rattle.or_geom.specs.ShapeOrder.{shape_order};
ghost use Rattle.tech_rules.specs.declared.tech.Wire.{Wire};
ghost use Rattle.leaf_tables.specs.declared.part.PartFault.{PartFault};
ghost use Rattle.leaf_tables.specs.Kits.{IsKit};
ghost use Rattle.tech_rules.specs.Facts.{IsWire};
ghost use Rattle.sram_netlist.specs.Organization.{IsWritten};
ghost use Rattle.sram_netlist.specs.Numbers.{ArePlanNumbers};
ghost use Rattle.sram_plan.specs.PlanNumbers.{numbers_of, organization};
ghost use Rattle.floorplan.specs.LayoutOfKit.{layout_kit};
ghost use Rattle.floorplan.specs.Sides.{AreLeafSides, AreSidesOf};
ghost use Rattle.floorplan.specs.FloorplanNumbers.{floorplan_of, IsNearFloorplan};
ghost use Rattle.port_data.specs.Column.{IsColumnRouted};
ghost use Rattle.bank_layout.specs.StatedWires.{AreWiresOfCell};
ghost use Rattle.bank_layout.specs.BankTaps.{AreBankRails, AreTapsApart, IsBankFault};
ghost use Rattle.bank_layout.specs.Outputs.{AddsOutputs};
ghost use Rattle.bank_layout.specs.Near.{IsBankGiven, IsDrawableWire};

use crate::channel::add_moved;
use crate::leaves::pin_of;
use crate::numbers::{choice_count, line_count, rail_xs};
use crate::outputs::add_outputs;
use crate::taps::bank_taps;
use cell_roles::Role;
use channel_router::Routed;
use floorplan::{FloorplanNumbers, LeafSides, add_bank_joiners, columns_x};
use leaf_tables::{Kit, PartFault, wire_of};
use or_geom::{Memory, Shape, sort_distinct};
use rail_bus::rails;
use sram_plan::Plan;
use std::alloc::Global;
use tech_rules::Wire;

/// The wires of a bank: its column channel, its rails and their taps, its outputs, and its joiners, each once and in
/// order, in nanometres from the lower left corner of the macro's first bank. `routed` is the column channel, routed
/// from the left end of the columns and the bank's lower edge. Where nothing is written there are no outputs: the sense
/// cells stand at the lower edge. `TapsClose` names two taps that are nearer to each other than the pitch. `Memory`.
pub fn bank_wires(
    alloc: Global,
    kit: &Kit,
    plan: &Plan,
    sides: &LeafSides,
    floorplan: &FloorplanNumbers,
    routed: &Routed,
) -> Result<Vec<Shape>, PartFault>
    requires kit { IsKit kit.now }
    requires plan { ArePlanNumbers (numbers_of plan.now) }
    requires sides { AreLeafSides sides.now }
    requires sides_of { AreSidesOf (organization plan.now) (layout_kit kit.now) sides.now }
    requires near { IsNearFloorplan floorplan.now }
    requires given { (wire : Wire) → kit.now.tech.wire ≡ Some wire
        → IsBankGiven (organization plan.now) (layout_kit kit.now) wire (floorplan_of floorplan.now) routed.now }
    ensures rises { IfOk result (λ shapes. IsStrictlySortedBy shape_order shapes.items) }
    ensures near { IfOk result (λ shapes. (wire : Wire) → kit.now.tech.wire ≡ Some wire → (s : Shape)
        → Contains shapes.items s → IsDrawableWire wire s) }
    ensures stated { IfOk result (λ shapes. (wire : Wire) → kit.now.tech.wire ≡ Some wire
        → IsColumnRouted (organization plan.now) (layout_kit kit.now) wire (floorplan_of floorplan.now) routed.now
        → AreWiresOfCell (organization plan.now) (layout_kit kit.now) wire routed.now.tracks
        (floorplan_of floorplan.now) shapes.items) }
    ensures apart { IfOk result (λ shapes. (wire : Wire) → kit.now.tech.wire ≡ Some wire
        → AreTapsApart kit.now.leaves (organization plan.now) (layout_kit kit.now) wire
        (floorplan_of floorplan.now) routed.now.track) }
    ensures fault { IfErr result (λ (fault : PartFault). (wire : Wire) → kit.now.tech.wire ≡ Some wire
        → IsBankFault kit.now.leaves (organization plan.now) (layout_kit kit.now) wire
        (floorplan_of floorplan.now) routed.now.track fault) }
{
    let wire = wire_of(kit);
    let mut shapes = rail_wires(alloc, kit, plan, sides, floorplan, routed, wire)?;
    let left = columns_x(sides, floorplan);
    add_moved(left, routed.shapes.as_slice(), &mut shapes)?;
    add_output_wires(kit, plan, sides, floorplan, wire, &mut shapes)?;
    add_bank_joiners(plan, sides, wire, floorplan, &mut shapes)?;
    sort_distinct(&mut shapes);
    Ok(shapes)
}

/// The bank's rails and their taps.
fn rail_wires(
    alloc: Global,
    kit: &Kit,
    plan: &Plan,
    sides: &LeafSides,
    floorplan: &FloorplanNumbers,
    routed: &Routed,
    wire: &Wire,
) -> Result<Vec<Shape>, PartFault>
    requires kit { IsKit kit.now }
    requires plan { ArePlanNumbers (numbers_of plan.now) }
    requires sides { AreLeafSides sides.now }
    requires sides_of { AreSidesOf (organization plan.now) (layout_kit kit.now) sides.now }
    requires near { IsNearFloorplan floorplan.now }
    requires wire { kit.now.tech.wire ≡ Some wire.now }
    requires given { IsBankGiven (organization plan.now) (layout_kit kit.now) wire.now
        (floorplan_of floorplan.now) routed.now }
    ensures drawn { IfOk result (λ shapes. AreBankRails kit.now.leaves (organization plan.now)
        (layout_kit kit.now) wire.now (floorplan_of floorplan.now) routed.now.track shapes.items) }
    ensures apart { IfOk result (λ shapes. AreTapsApart kit.now.leaves (organization plan.now)
        (layout_kit kit.now) wire.now (floorplan_of floorplan.now) routed.now.track) }
    ensures fault { IfErr result (IsBankFault kit.now.leaves (organization plan.now) (layout_kit kit.now) wire.now
        (floorplan_of floorplan.now) routed.now.track) }
{
    let taps = bank_taps(
        alloc,
        kit,
        plan,
        sides,
        floorplan,
        routed.track.as_slice(),
        wire,
    )?;
    let xs = rail_xs(alloc, line_count(plan) + 3 + choice_count(plan), wire)?;
    Ok(rails(alloc, 0, &xs, &taps, wire)?)
}

/// Adds the wires of the sense cells' outputs.
fn add_output_wires(
    kit: &Kit,
    plan: &Plan,
    sides: &LeafSides,
    floorplan: &FloorplanNumbers,
    wire: &Wire,
    shapes: &mut Vec<Shape>,
) -> Result<(), Memory>
    requires kit { IsKit kit.now }
    requires plan { ArePlanNumbers (numbers_of plan.now) }
    requires sides { AreLeafSides sides.now }
    requires sides_of { AreSidesOf (organization plan.now) (layout_kit kit.now) sides.now }
    requires near { IsNearFloorplan floorplan.now }
    requires wire { IsWire kit.now.tech.layers wire.now }
    requires above { IsWritten (organization plan.now) → floorplan.now.write_y <ℤ floorplan.now.sense_y }
    ensures { OnOk result (AddsOutputs kit.now.leaves (organization plan.now) (layout_kit kit.now) wire.now
        (floorplan_of floorplan.now) shapes.old.items shapes.new.items) }
{
    let pin = pin_of(kit, Role::Sense, 2);
    let first = columns_x(sides, floorplan) + pin.rect.x1;
    let top = floorplan.sense_y - floorplan.write_y;
    add_outputs(plan, first, sides.bit_width, top, wire, shapes)?;
    Ok(())
}
