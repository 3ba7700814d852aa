ghost use Rattle.std.specs.Prelude.{◌≡◌, ◌<◌, ◌≤◌, IfOk};
ghost use Rattle.leaf_tables.specs.Kits.{IsKit};
ghost use Rattle.sram_netlist.specs.Numbers.{ArePlanNumbers};
ghost use Rattle.sram_plan.specs.PlanNumbers.{numbers_of, organization};
ghost use Rattle.macro_layout.specs.Floorplan.{column_role, write_height};
ghost use Rattle.floorplan.specs.Sides.{AreLeafSides, AreSidesOf};
ghost use Rattle.floorplan.specs.LayoutOfKit.{layout_kit};

use crate::leaves::{leaf_height, leaf_width};
use cell_roles::Role;
use leaf_tables::Kit;
use or_geom::Memory;
use port_lists::{groups_of, row_gate_role};
use sram_plan::Plan;
use std::alloc::Global;

/// The sides of the leaf cells that stand in a memory's rows, in nanometres.
#[derive(Clone, Copy, Debug)]
pub struct LeafSides {
    /// The height of the logic row.
    pub inv_height: u32,
    /// 0 where nothing is written.
    pub write_height: u32,
    pub sense_height: u32,
    /// The height of the cells in which columns end: multiplexers, or ties where a row has one word.
    pub end_height: u32,
    pub precharge_height: u32,
    pub bit_height: u32,
    pub bit_width: u32,
    /// The width of a row's gate.
    pub gate_width: u32,
    /// The width of a word line's driver.
    pub driver_width: u32,
}

/// The sides of the leaf cells that stand in a memory's rows.
pub fn sides_of(alloc: Global, kit: &Kit, plan: &Plan) -> Result<LeafSides, Memory>
    requires kit { IsKit kit.now }
    requires plan { ArePlanNumbers (numbers_of plan.now) }
    ensures are { IfOk result AreLeafSides }
    ensures of { IfOk result (AreSidesOf (organization plan.now) (layout_kit kit.now)) }
{
    let groups = groups_of(alloc, plan)?;
    Ok(LeafSides {
        inv_height: leaf_height(kit, Role::Inv),
        write_height: write_height(kit, plan),
        sense_height: leaf_height(kit, Role::Sense),
        end_height: leaf_height(kit, end_role(plan)),
        precharge_height: leaf_height(kit, Role::Precharge),
        bit_height: leaf_height(kit, Role::Bitcell),
        bit_width: leaf_width(kit, Role::Bitcell),
        gate_width: leaf_width(kit, row_gate_role(&groups)),
        driver_width: leaf_width(kit, Role::Driver),
    })
}

/// The height of the write cells, or 0 where nothing is written.
pub fn write_height(kit: &Kit, plan: &Plan) -> u32
    requires { IsKit kit.now }
    ensures is { result ≡ write_height (organization plan.now) (layout_kit kit.now) }
    ensures few { result ≤ 65536 }
{
    if plan.write_size == 0 {
        0
    } else {
        leaf_height(kit, Role::Write)
    }
}

/// The role of the cells in which columns end.
fn end_role(plan: &Plan) -> Role
    ensures { result ≡ column_role plan.now.col_bits }
{
    if plan.col_bits == 0 {
        Role::Tie
    } else {
        Role::Mux
    }
}
