ghost use Rattle.std.specs.Prelude.{◌≡◌, ◌⊎◌, ◌↔◌, ◌≤◌, ◌<◌, Some, Contains, length, IfOk, IfErr};
ghost use Rattle.or_geom.specs.declared.shape.Shape.{Shape};
ghost use Rattle.tech_rules.specs.declared.tech.Wire.{Wire};
ghost use Rattle.tech_rules.specs.Facts.{AreSizes, IsWire};
ghost use Rattle.leaf_tables.specs.Kits.{IsKit};
ghost use Rattle.sram_netlist.specs.Numbers.{ArePlanNumbers};
ghost use Rattle.sram_plan.specs.PlanNumbers.{numbers_of, organization};
ghost use Rattle.port_lists.specs.Cells.{cell_in};
ghost use Rattle.macro_layout.specs.LayoutKit.{LayoutKit};
ghost use Rattle.macro_layout.specs.Floorplan.{Tracks, IsFloorplan};
ghost use Rattle.macro_layout.specs.Wires.{IsPowerWire, IsGroundWire};
ghost use Rattle.floorplan.specs.LayoutOfKit.{layout_kit};
ghost use Rattle.floorplan.specs.Sides.{AreLeafSides, AreSidesOf};
ghost use Rattle.floorplan.specs.FloorplanNumbers.{floorplan_of, IsNearFloorplan};
ghost use Rattle.floorplan.specs.Trunks.{IsBehind};
ghost use Rattle.port_data.specs.Column.{IsColumnOf};
ghost use Rattle.control_logic.specs.LogicPart.{IsLogicRow};
ghost use Rattle.sram_macro.specs.Extents.{AreExtents, AreNearExtents};
ghost use Rattle.sram_macro.specs.Layout.{IsMainRouted, IsMainFault, IsMacroLayout, IsMacroLayoutFault};

use crate::extents::{Extents, extents_of};
use bank_layout::bank_wires;
use channel_router::{Routed, route};
use control_logic::{LogicRow, row_width};
use floorplan::{
    FloorplanNumbers, LeafSides, add_ground_wires, add_power_wires, floorplan, sides_of,
};
use leaf_tables::{Kit, PartFault, wire_of};
use macro_bounds::{routed_shapes_are_near, tracks_are_few};
use main_channel::main_channel;
use or_geom::{Memory, Shape};
use sram_plan::Plan;
use std::alloc::Global;
use tech_rules::Wire;
use wire_drawing::RouteFault;

/// How a macro is laid out: the sides of its leaf cells, where its parts stand and where it ends, the wires of a bank
/// from its lower edge, each once and in order, and the main channel.
#[derive(Drop)]
pub struct Layout {
    pub sides: LeafSides,
    pub floorplan: FloorplanNumbers,
    pub ends: Extents,
    pub bank: Vec<Shape>,
    pub main: Routed,
}

/// Routes the main channel of a macro whose parts stand so.
fn route_main(
    alloc: Global,
    kit: &Kit,
    plan: &Plan,
    row: &LogicRow,
    wire: &Wire,
    floorplan: &FloorplanNumbers,
) -> Result<Routed, RouteFault>
    requires kit { IsKit kit.now }
    requires plan { ArePlanNumbers (numbers_of plan.now) }
    requires row { IsLogicRow (organization plan.now) (cell_in kit.now.tech.roles) row.now }
    requires wire { IsWire kit.now.tech.layers wire.now }
    requires wired { kit.now.tech.wire ≡ Some wire.now }
    requires near { IsNearFloorplan floorplan.now }
    requires stands { (tracks : Tracks) × IsFloorplan (organization plan.now) (layout_kit kit.now) wire.now tracks
        (floorplan_of floorplan.now) }
    ensures routed { IfOk result (IsMainRouted (organization plan.now) (layout_kit kit.now) wire.now) }
    ensures fault { IfErr result (IsMainFault (organization plan.now) (layout_kit kit.now) wire.now) }
{
    let channel = main_channel(alloc, kit, plan, row, floorplan)?;
    // The channel has at most as many tracks as nets, by this law.
    tracks_are_few();
    route(alloc, &channel, wire)
}

/// How many tracks the main channel has, or none where it isn't routed.
fn tracks_of(main: &Result<Routed, RouteFault>) -> u32
    requires few { IfOk main.now (λ routed. routed.tracks ≤ 4096) }
    ensures is { IfOk main.now (λ routed. result ≡ routed.tracks) }
    ensures few { result ≤ 4096 }
{
    match main {
        Ok(routed) => routed.tracks,
        Err(_) => 0,
    }
}

/// Lays the macro out around a routed column channel and its logic row. A bank is refused before the main channel.
pub fn lay_out(
    alloc: Global,
    kit: &Kit,
    plan: &Plan,
    row: &LogicRow,
    column: &Routed,
) -> Result<Layout, PartFault>
    requires kit { IsKit kit.now }
    requires plan { ArePlanNumbers (numbers_of plan.now) }
    requires row { IsLogicRow (organization plan.now) (cell_in kit.now.tech.roles) row.now }
    requires column { IsColumnOf kit.now (organization plan.now) column.now }
    ensures layout { IfOk result (IsMacroLayout kit.now (organization plan.now) column.now) }
    ensures fault { IfErr result (IsMacroLayoutFault kit.now (organization plan.now) column.now) }
{
    let wire = wire_of(kit);
    let sides = sides_of(alloc, kit, plan)?;
    let begun = floorplan(plan, &sides, wire, 0, column.tracks);
    let main = route_main(alloc, kit, plan, row, wire, &begun);
    let stands = floorplan(plan, &sides, wire, tracks_of(&main), column.tracks);
    // The column channel lies near the origin, by this law.
    routed_shapes_are_near();
    let bank = bank_wires(alloc, kit, plan, &sides, &stands, column)?;
    let main = main?;
    Ok(Layout {
        ends: extents_of(plan, &sides, row_width(kit, row), wire, &stands),
        sides,
        floorplan: stands,
        bank,
        main,
    })
}

/// The wires of the macro that aren't in its banks: those of the main channel, and the supplies.
pub fn top_wires(
    plan: &Plan,
    wire: &Wire,
    sides: &LeafSides,
    floorplan: &FloorplanNumbers,
    ends: &Extents,
    main: Routed,
) -> Result<Vec<Shape>, Memory>
    requires plan { ArePlanNumbers (numbers_of plan.now) }
    requires sides { AreLeafSides sides.now }
    requires sizes { AreSizes wire.now }
    requires metals { 1 < length wire.now.metals }
    requires cuts { 0 < length wire.now.cuts }
    requires near { IsNearFloorplan floorplan.now }
    requires ends { AreNearExtents ends.now }
    requires power { IsBehind sides.now floorplan.now ends.now.power_x }
    requires ground { IsBehind sides.now floorplan.now ends.now.ground_x }
    ensures { IfOk result (λ shapes. (kit : LayoutKit) → AreSidesOf (organization plan.now) kit sides.now
        → AreExtents (organization plan.now) kit wire.now (floorplan_of floorplan.now) ends.now
        → (s : Shape) → Contains shapes.items s
        ↔ (Contains main.shapes s ⊎ (IsPowerWire (organization plan.now) kit wire.now
        (floorplan_of floorplan.now) s
        ⊎ IsGroundWire (organization plan.now) kit wire.now (floorplan_of floorplan.now) s))) }
{
    let mut shapes = main.shapes.into_vec();
    add_power_wires(plan, sides, wire, floorplan, ends.power_x, &mut shapes)?;
    add_ground_wires(plan, sides, wire, floorplan, ends.ground_x, &mut shapes)?;
    Ok(shapes)
}
