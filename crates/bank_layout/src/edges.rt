ghost use Rattle.std.specs.Prelude.{◌≡◌, ◌≤◌, ◌^◌, ◌+◌, ◌++◌, [], pos, map, Some, IfOk, OnOk, slice_index_or};
ghost use Rattle.std.specs.List.{AllByRecursion};
ghost use Rattle.or_geom.specs.Distance.{IsNear};
ghost use Rattle.cell_roles.specs.declared.role.Role.TheVariants.{Precharge};
ghost use Rattle.leaf_tables.specs.Kits.{IsKit};
ghost use Rattle.tech_rules.specs.Facts.{AreSizes};
ghost use Rattle.tech_rules.specs.declared.tech.Wire.{Wire};
ghost use Rattle.macro_layout.specs.Floorplan.{line_count};
ghost use Rattle.sram_netlist.specs.Organization.{inputs_of, columns_of, words_per_row};
ghost use Rattle.sram_netlist.specs.InstanceList.{tabulate};
ghost use Rattle.sram_netlist.specs.Numbers.{ArePlanNumbers};
ghost use Rattle.sram_plan.specs.PlanNumbers.{numbers_of, organization};
ghost use Rattle.floorplan.specs.LayoutOfKit.{layout_kit};
ghost use Rattle.floorplan.specs.Sides.{AreLeafSides, AreSidesOf};
ghost use Rattle.floorplan.specs.FloorplanNumbers.{floorplan_of, IsUpTo, IsNearFloorplan};
ghost use Rattle.part_edges.specs.declared.side.PartSide.TheVariants.{Upper};
ghost use Rattle.part_edges.specs.PartPins.{edges_at};
ghost use Rattle.bank_layout.specs.BankPart.{pre_pins};
ghost use Rattle.bank_layout.specs.BankEdges.{rail_edge, output_edge, edge_moved, AddsClockEdge, AreTopEdges};
ghost use Rattle.bank_layout.specs.BankEdges.{AreBottomEdges, AreBankEdges};

use crate::leaves::pin_of;
use crate::numbers::{choice_count, column_offset, first_column, line_count, rail_x};
use bitcell_array::{pre_cell, precharge_subckt};
use cell_roles::Role;
use floorplan::{FloorplanNumbers, LeafSides, columns_x};
use leaf_tables::{Edge, Edges, Kit, wire_of};
use or_geom::{Items, Memory, Name};
use part_edges::{PartSide, edge_at, side_edges, sorted_edges};
use port_lists::{Spelling, spell};
use sram_plan::{Plan, inputs_of};
use std::alloc::Global;
use tech_rules::Wire;

/// The port of this number, or an empty name where there is none.
fn port_at(ports: &[Name], number: usize) -> &[u8]
    ensures { result.now ≡ slice_index_or ports.now number [] }
{
    match ports.get(number) {
        Some(port) => port.as_bytes(),
        None => &[],
    }
}

/// The edge of a rail, which is on the port of its number.
fn rail_edge(alloc: Global, ports: &[Name], rail: u32, wire: &Wire) -> Result<Edge, Memory>
    requires sizes { AreSizes wire.now }
    requires few { rail ≤ 64 }
    ensures { IfOk result (λ edge. edge ≡ rail_edge wire.now ports.now rail) }
{
    let net = Name::from_bytes(alloc, port_at(ports, rail as usize))?;
    Ok(edge_at(net, rail_x(rail, wire)))
}

/// Adds the edges of so many rails.
fn add_rail_edges(
    alloc: Global,
    ports: &[Name],
    count: u32,
    wire: &Wire,
    edges: &mut Vec<Edge>,
) -> Result<(), Memory>
    requires sizes { AreSizes wire.now }
    requires few { count ≤ 64 }
    ensures { OnOk result (edges.new.items ≡ edges.old.items ++ tabulate count (rail_edge wire.now ports.now)) }
{
    for rail in 0..count {
        edges.push(rail_edge(alloc, ports, rail, wire)?)?;
    }
    Ok(())
}

/// Adds the edges of the outputs' wires: the first at `first`, and the others as far from each other as the bits'
/// columns, which are so wide.
fn add_output_edges(
    alloc: Global,
    plan: &Plan,
    first: i64,
    width: u32,
    edges: &mut Vec<Edge>,
) -> Result<(), Memory>
    requires plan { ArePlanNumbers (numbers_of plan.now) }
    requires near { IsUpTo (2 ^ 25) first }
    requires width { width ≤ 65536 }
    ensures { OnOk result (edges.new.items ≡ edges.old.items ++ tabulate (inputs_of (organization plan.now))
        (output_edge first (words_per_row (organization plan.now)) width)) }
{
    for bit in 0..inputs_of(plan) {
        let x = first + column_offset(first_column(plan, bit), width);
        edges.push(edge_at(spell(alloc, Spelling::Numbered(b"o", bit))?, x))?;
    }
    Ok(())
}

/// The edge of a part that stands so far right.
fn moved_edge(alloc: Global, by: i64, edge: &Edge) -> Result<Edge, Memory>
    requires by { IsUpTo (2 ^ 24) by }
    requires near { IsNear edge.now.x }
    ensures { IfOk result (λ made. made ≡ edge_moved by edge.now) }
{
    let net = Name::from_bytes(alloc, edge.net.as_bytes())?;
    Ok(edge_at(net, edge.x + by))
}

/// Adds the edges of a part that stands so far right.
fn add_moved_edges(
    alloc: Global,
    by: i64,
    part: &[Edge],
    edges: &mut Vec<Edge>,
) -> Result<(), Memory>
    requires by { IsUpTo (2 ^ 24) by }
    requires near { AllByRecursion (λ edge. IsNear edge.x) part.now }
    ensures { OnOk result (edges.new.items ≡ edges.old.items ++ map (edge_moved by) part.now) }
{
    let mut rest = part;
    while let Some((edge, others)) = rest.split_first() {
        edges.push(moved_edge(alloc, by, edge)?)?;
        rest = others;
    }
    Ok(())
}

/// Adds the edge of the inverted clock's rail at the upper side, if its tap, along the precharge cells' enable, is at
/// the upper end of these cells, which are so high.
fn add_clock_edge(
    alloc: Global,
    kit: &Kit,
    plan: &Plan,
    ports: &[Name],
    height: u32,
    edges: &mut Vec<Edge>,
) -> Result<(), Memory>
    requires kit { IsKit kit.now }
    requires plan { ArePlanNumbers (numbers_of plan.now) }
    requires height { height ≤ 65536 }
    ensures { OnOk result ((wire : Wire) → kit.now.tech.wire ≡ Some wire
        → AddsClockEdge kit.now.leaves wire ports.now (line_count (organization plan.now).groups + 2)
        (pos height) edges.old.items edges.new.items) }
{
    let wire = wire_of(kit);
    let pin = pin_of(kit, Role::Precharge, 2);
    if pin.rect.y1 + wire.width == i64::from(height) {
        edges.push(rail_edge(alloc, ports, line_count(plan) + 2, wire)?)?;
    }
    Ok(())
}

/// The roles of the precharge cells.
fn precharge_roles(alloc: Global, plan: &Plan) -> Result<Vec<Role>, Memory>
    requires { ArePlanNumbers (numbers_of plan.now) }
    ensures { IfOk result (λ roles. roles.items ≡ tabulate (columns_of (organization plan.now)) (λ c. Precharge)) }
{
    let mut roles = Vec::new(alloc);
    for _ in 0..plan.columns {
        roles.push(Role::Precharge)?;
    }
    Ok(roles)
}

/// The edges of the precharge cells at their upper side, which is so high, from the lower left corner of the first.
fn precharge_edges(
    alloc: Global,
    kit: &Kit,
    plan: &Plan,
    name: &Name,
    height: u32,
) -> Result<Vec<Edge>, Memory>
    requires kit { IsKit kit.now }
    requires plan { ArePlanNumbers (numbers_of plan.now) }
    ensures { IfOk result (λ edges. edges.items
        ≡ edges_at (Upper (pos height)) (pre_pins kit.now (organization plan.now) name.now)) }
{
    let roles = precharge_roles(alloc, plan)?;
    let subckt = precharge_subckt(alloc, plan, kit.tech.roles.as_slice(), name)?;
    let cell = pre_cell(alloc, kit, plan, name)?;
    let instances = subckt.instances.as_slice();
    let side = PartSide::Upper {
        height: i64::from(height),
    };
    side_edges(
        alloc,
        kit,
        &roles,
        instances,
        cell.instances.as_slice(),
        side,
    )
}

/// The edges of a bank at its upper side.
fn top_edges(
    alloc: Global,
    kit: &Kit,
    plan: &Plan,
    name: &Name,
    sides: &LeafSides,
    floorplan: &FloorplanNumbers,
    ports: &[Name],
) -> Result<Items<Edge>, Memory>
    requires kit { IsKit kit.now }
    requires plan { ArePlanNumbers (numbers_of plan.now) }
    requires sides { AreLeafSides sides.now }
    requires sides_of { AreSidesOf (organization plan.now) (layout_kit kit.now) sides.now }
    requires near { IsNearFloorplan floorplan.now }
    ensures { IfOk result (λ edges. (wire : Wire) → kit.now.tech.wire ≡ Some wire
        → AreTopEdges kit.now (organization plan.now) wire (floorplan_of floorplan.now) name.now ports.now edges) }
{
    let height = sides.precharge_height;
    let columns = precharge_edges(alloc, kit, plan, name, height)?;
    let mut edges = Vec::new(alloc);
    add_clock_edge(alloc, kit, plan, ports, height, &mut edges)?;
    add_moved_edges(alloc, columns_x(sides, floorplan), &columns, &mut edges)?;
    Ok(sorted_edges(edges))
}

/// The edges of a bank at its lower side. `lower` are those of its data.
fn bottom_edges(
    alloc: Global,
    kit: &Kit,
    plan: &Plan,
    sides: &LeafSides,
    floorplan: &FloorplanNumbers,
    ports: &[Name],
    lower: &[Edge],
) -> Result<Items<Edge>, Memory>
    requires kit { IsKit kit.now }
    requires plan { ArePlanNumbers (numbers_of plan.now) }
    requires sides { AreLeafSides sides.now }
    requires sides_of { AreSidesOf (organization plan.now) (layout_kit kit.now) sides.now }
    requires near { IsNearFloorplan floorplan.now }
    requires lower { AllByRecursion (λ edge. IsNear edge.x) lower.now }
    ensures { IfOk result (λ edges. (wire : Wire) → kit.now.tech.wire ≡ Some wire
        → AreBottomEdges kit.now (organization plan.now) wire (floorplan_of floorplan.now) ports.now lower.now edges) }
{
    let wire = wire_of(kit);
    let left = columns_x(sides, floorplan);
    let first = left + pin_of(kit, Role::Sense, 2).rect.x1;
    let rails = line_count(plan) + 3 + choice_count(plan);
    let mut edges = Vec::new(alloc);
    add_rail_edges(alloc, ports, rails, wire, &mut edges)?;
    add_output_edges(alloc, plan, first, sides.bit_width, &mut edges)?;
    add_moved_edges(alloc, left, lower, &mut edges)?;
    Ok(sorted_edges(edges))
}

/// The sides of the leaf cells of a bank, and where its parts stand.
#[derive(Clone, Copy)]
pub struct BankFrame {
    pub sides: LeafSides,
    pub floorplan: FloorplanNumbers,
}

/// The edges of a bank with these ports, in nanometres from its lower left corner. `lower` are those of its data at the
/// lower side, from the left end of the columns.
pub fn bank_edges(
    alloc: Global,
    kit: &Kit,
    plan: &Plan,
    name: &Name,
    frame: &BankFrame,
    ports: &[Name],
    lower: &[Edge],
) -> Result<Edges, Memory>
    requires kit { IsKit kit.now }
    requires plan { ArePlanNumbers (numbers_of plan.now) }
    requires sides { AreLeafSides frame.now.sides }
    requires sides_of { AreSidesOf (organization plan.now) (layout_kit kit.now) frame.now.sides }
    requires near { IsNearFloorplan frame.now.floorplan }
    requires lower { AllByRecursion (λ edge. IsNear edge.x) lower.now }
    ensures { IfOk result (λ edges. (wire : Wire) → kit.now.tech.wire ≡ Some wire
        → AreBankEdges kit.now (organization plan.now) wire (floorplan_of frame.now.floorplan) name.now ports.now
        lower.now edges) }
{
    let sides = &frame.sides;
    let floorplan = &frame.floorplan;
    let top = top_edges(alloc, kit, plan, name, sides, floorplan, ports)?;
    let bottom = bottom_edges(alloc, kit, plan, sides, floorplan, ports, lower)?;
    let upper = floorplan.precharge_y + i64::from(sides.precharge_height);
    Ok(Edges {
        top,
        bottom,
        width: floorplan.bank_width,
        height: upper - floorplan.write_y,
    })
}
