ghost use Rattle.std.specs.Prelude.{◌≡◌, ◌<◌, ◌≤◌, ◌*◌, ◌^◌, ◌++◌, ℕ, length, pos, ◌≤ℤ◌, Some, IfOk, IfErr, OnOk};
ghost use Rattle.std.specs.Prelude.{OnErr};
ghost use Rattle.std.specs.List.{AllByRecursion};
ghost use Rattle.or_geom.specs.Place.{IsNearPoint};
ghost use Rattle.tech_rules.specs.declared.tech.Wire.{Wire};
ghost use Rattle.leaf_tables.specs.Kits.{IsKit};
ghost use Rattle.sram_netlist.specs.Organization.{columns_of};
ghost use Rattle.sram_netlist.specs.InstanceList.{tabulate};
ghost use Rattle.sram_netlist.specs.Numbers.{ArePlanNumbers};
ghost use Rattle.sram_plan.specs.PlanNumbers.{numbers_of, organization};
ghost use Rattle.port_lists.specs.Cells.{cell_in};
ghost use Rattle.macro_layout.specs.Places.{Floorplan, bit_width};
ghost use Rattle.macro_layout.specs.Floorplan.{IsFloorplan, column_role};
ghost use Rattle.floorplan.specs.LayoutOfKit.{layout_kit};
ghost use Rattle.part_edges.specs.Additions.{with_subckt};
ghost use Rattle.part_edges.specs.PartPins.{part_pins, AreEdgesOf};
ghost use Rattle.port_data.specs.DataPart.{data_part_subckt, data_roles, IsDataDrawn, IsDataBuilt, IsDataRefused};

use crate::cell::data_cell;
use crate::routing::channel;
use crate::slices::refuse_narrow_slices;
use crate::subckt::data_subckt;
use cell_builder::{Cells, DrawnCell};
use cell_roles::Role;
use floorplan::{floorplan, sides_of};
use leaf_tables::{Edges, Kit, PartFault, wire_of};
use netlist::{Deck, Subckt};
use or_geom::{Memory, Name};
use part_edges::{add_part, edges_of};
use sram_plan::{Plan, inputs_of};
use std::alloc::Global;

/// Adds the cell and the subcircuit of a bank's data. Answers where nets come to its edges, in nanometres from the
/// lower left corner of its cells. `name` is the macro's. `SliceTooNarrow`: the sense cell, or else the write cell
/// where something is written, is wider than the columns of a bit; or else `Close`: pins of the column channel are
/// nearer to each other than the pitch, x as `channel` has it. After a refusal nothing is added.
pub fn build(
    alloc: Global,
    kit: &Kit,
    plan: &Plan,
    name: &Name,
    cells: &mut Cells,
    deck: &mut Deck,
) -> Result<Edges, PartFault>
    requires kit { IsKit kit.now }
    requires plan { ArePlanNumbers (numbers_of plan.now) }
    requires few { length cells.old.cells < 2 ^ 31 }
    ensures built { IfOk result (IsDataBuilt kit.now (organization plan.now) name.now cells.old cells.new) }
    ensures deck { OnOk result (deck.new
        ≡ with_subckt (data_part_subckt (organization plan.now) (cell_in kit.now.tech.roles) name.now) deck.old) }
    ensures fault { IfErr result (IsDataRefused kit.now (organization plan.now)) }
    ensures same_cells { OnErr result (cells.new ≡ cells.old) }
    ensures same_deck { OnErr result (deck.new ≡ deck.old) }
{
    refuse_narrow_slices(alloc, kit, plan)?;
    let routed = channel(alloc, kit, plan)?;
    Ok(add_data(alloc, kit, plan, name, routed.tracks, cells, deck)?)
}

/// Adds the cell and the subcircuit of a bank's data, where its column channel has so many tracks, as `channel` gives
/// them. Answers the edges that `build` answers. `name` is the macro's. `Memory`: then nothing is added.
pub fn add_data(
    alloc: Global,
    kit: &Kit,
    plan: &Plan,
    name: &Name,
    tracks: u32,
    cells: &mut Cells,
    deck: &mut Deck,
) -> Result<Edges, Memory>
    requires kit { IsKit kit.now }
    requires plan { ArePlanNumbers (numbers_of plan.now) }
    requires tracks { tracks ≤ 1024 }
    requires few { length cells.old.cells < 2 ^ 31 }
    ensures drawn { IfOk result (λ edges. (wire : Wire) (main : ℕ) (floorplan : Floorplan)
        → kit.now.tech.wire ≡ Some wire → IsFloorplan (organization plan.now) (layout_kit kit.now) wire
        (record { main = main; column = tracks }) floorplan
        → IsDataDrawn kit.now (organization plan.now) name.now floorplan cells.old cells.new edges) }
    ensures deck { OnOk result (deck.new
        ≡ with_subckt (data_part_subckt (organization plan.now) (cell_in kit.now.tech.roles) name.now) deck.old) }
    ensures same_cells { OnErr result (cells.new ≡ cells.old) }
    ensures same_deck { OnErr result (deck.new ≡ deck.old) }
{
    let sides = sides_of(alloc, kit, plan)?;
    // The heights in the data are the same however many tracks the main channel has.
    let stands = floorplan(plan, &sides, wire_of(kit), 0, tracks);
    let sense_y = stands.sense_y - stands.write_y;
    let column_y = stands.column_y - stands.write_y;
    let height = stands.array_y - stands.write_y;
    let width = columns_width(plan, sides.bit_width);
    let cell = data_cell(alloc, kit, plan, name, sense_y, column_y)?;
    let subckt = data_subckt(alloc, plan, kit.tech.roles.as_slice(), name)?;
    let edges = data_edges(alloc, kit, plan, &subckt, &cell, width, height)?;
    add_part(alloc, cell, subckt, cells, deck)?;
    Ok(edges)
}

/// The width of all columns, which are so wide.
fn columns_width(plan: &Plan, width: u32) -> i64
    requires plan { ArePlanNumbers (numbers_of plan.now) }
    requires width { width ≤ 65536 }
    ensures is { result ≡ pos (columns_of (organization plan.now) * width) }
    ensures few { result ≤ℤ pos 16777216 }
{
    i64::from(plan.columns * width)
}

/// The edges of the data, which is this cell and this subcircuit, and has these sides.
fn data_edges(
    alloc: Global,
    kit: &Kit,
    plan: &Plan,
    subckt: &Subckt,
    cell: &DrawnCell,
    width: i64,
    height: i64,
) -> Result<Edges, Memory>
    requires kit { IsKit kit.now }
    requires plan { ArePlanNumbers (numbers_of plan.now) }
    requires near { AllByRecursion (λ leaf. IsNearPoint leaf.place.at) cell.now.instances }
    ensures edges { IfOk result (AreEdgesOf
        (part_pins kit.now.leaves (data_roles (organization plan.now)) subckt.now.instances cell.now.instances)) }
    ensures width { IfOk result (λ edges. edges.width ≡ width) }
    ensures height { IfOk result (λ edges. edges.height ≡ height) }
{
    let roles = data_roles(alloc, plan)?;
    let instances = subckt.instances.as_slice();
    let placed = cell.instances.as_slice();
    edges_of(alloc, kit, &roles, instances, placed, width, height)
}

/// The roles of the data's cells, in their order.
fn data_roles(alloc: Global, plan: &Plan) -> Result<Vec<Role>, Memory>
    requires { ArePlanNumbers (numbers_of plan.now) }
    ensures { IfOk result (λ roles. roles.items ≡ data_roles (organization plan.now)) }
{
    let mut roles = Vec::new(alloc);
    add_roles(Role::Write, inputs_of(plan), &mut roles)?;
    add_roles(Role::Sense, plan.word_size, &mut roles)?;
    add_roles(end_role(plan), plan.columns, &mut roles)?;
    Ok(roles)
}

/// What the columns end in.
fn end_role(plan: &Plan) -> Role
    ensures { result ≡ column_role plan.now.col_bits }
{
    if plan.col_bits == 0 {
        Role::Tie
    } else {
        Role::Mux
    }
}

/// Adds the role so many times.
fn add_roles(role: Role, count: u32, roles: &mut Vec<Role>) -> Result<(), Memory>
    ensures { OnOk result (roles.new.items ≡ roles.old.items ++ tabulate count (λ i. role)) }
{
    for _ in 0..count {
        roles.push(role)?;
    }
    Ok(())
}
