ghost use Rattle.std.specs.Prelude.{◌≡◌, ◌≤◌, ◌^◌, pos, length, map, IfOk};
ghost use Rattle.cell_builder.specs.Additions.{instance_at};
ghost use Rattle.leaf_tables.specs.Kits.{IsKit};
ghost use Rattle.sram_netlist.specs.Organization.{Organization};
ghost use Rattle.sram_netlist.specs.Netlist.{logic_role};
ghost use Rattle.sram_netlist.specs.InstanceList.{logic_cells};
ghost use Rattle.sram_deck.specs.Deck.{logic_instances};
ghost use Rattle.port_lists.specs.Cells.{cell_in};
ghost use Rattle.macro_layout.specs.Places.{upright};
ghost use Rattle.macro_layout.specs.Cells.{logic_row_cell, side_by_side};
ghost use Rattle.floorplan.specs.LayoutOfKit.{layout_kit};
ghost use Rattle.control_logic.specs.LogicPart.{IsLogicRow, IsRowOfMemory};

use crate::row::LogicRow;
use cell_builder::{DrawnCell, PlacedInstance};
use cell_roles::Role;
use floorplan::{bare_cell, leaf_width, upright};
use leaf_tables::Kit;
use netlist::Instance;
use or_geom::{Memory, Name};
use std::alloc::Global;

/// The cell of a logic row: the cells of its gates side by side, in their order. `name` is the macro's.
pub fn logic_row_cell(
    alloc: Global,
    kit: &Kit,
    name: &Name,
    row: &LogicRow,
) -> Result<DrawnCell, Memory>
    requires kit { IsKit kit.now }
    requires row { IsRowOfMemory (cell_in kit.now.tech.roles) row.now }
    ensures { IfOk result (λ cell. (plan : Organization) → IsLogicRow plan (cell_in kit.now.tech.roles) row.now
        → cell ≡ logic_row_cell plan (layout_kit kit.now) name.now) }
{
    let instances = side_by_side(alloc, kit, &row.gates, &row.roles)?;
    Ok(bare_cell(alloc, name, b"_logic", instances)?)
}

/// The cells of gates with these roles, each where the one before it ends.
fn side_by_side(
    alloc: Global,
    kit: &Kit,
    gates: &[Instance],
    roles: &[Role],
) -> Result<Vec<PlacedInstance>, Memory>
    requires kit { IsKit kit.now }
    requires few { length gates.now ≤ 2 ^ 13 }
    requires roles { length roles.now ≡ length gates.now }
    ensures { IfOk result (λ placed. (plan : Organization)
        → gates.now ≡ logic_instances plan (cell_in kit.now.tech.roles)
        → roles.now ≡ map (logic_role plan) (logic_cells plan)
        → placed.items ≡ side_by_side plan (layout_kit kit.now) 0 (logic_cells plan)) }
{
    let mut placed = Vec::new(alloc);
    let mut x = 0;
    for cell in 0..gates.len() {
        placed.push(gate_at(alloc, &gates[cell], x)?)?;
        x += leaf_width(kit, roles[cell]);
    }
    Ok(placed)
}

/// A cell of the logic row that begins at x.
fn gate_at(alloc: Global, gate: &Instance, x: u32) -> Result<PlacedInstance, Memory>
    ensures { IfOk result (λ i. i ≡ instance_at gate.now.name gate.now.of (upright (pos x) (pos 0))) }
{
    Ok(PlacedInstance {
        name: Name::from_bytes(alloc, gate.name.as_bytes())?,
        of: Name::from_bytes(alloc, gate.of.as_bytes())?,
        place: upright(x, 0),
    })
}
