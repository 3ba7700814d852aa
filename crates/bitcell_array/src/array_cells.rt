ghost use Rattle.std.specs.Prelude.{◌≡◌, ◌≤◌, ◌++◌, List, IfOk, OnOk};
ghost use Rattle.leaf_tables.specs.Kits.{IsKit};
ghost use Rattle.sram_netlist.specs.Organization.{columns_of, bank_rows};
ghost use Rattle.sram_netlist.specs.InstanceList.{tabulate};
ghost use Rattle.sram_netlist.specs.Numbers.{ArePlanNumbers};
ghost use Rattle.sram_plan.specs.PlanNumbers.{numbers_of, organization};
ghost use Rattle.tech_rules.specs.declared.tech.RoleName.{RoleName};
ghost use Rattle.port_lists.specs.Contents.{bit_cells};
ghost use Rattle.macro_layout.specs.LayoutKit.{LayoutKit};
ghost use Rattle.macro_layout.specs.Places.{bit_height};
ghost use Rattle.macro_layout.specs.Cells.{array_cell, row_at, pre_cell, precharge_at};
ghost use Rattle.floorplan.specs.LayoutOfKit.{layout_kit};

use cell_builder::{DrawnCell, PlacedInstance};
use cell_roles::Role;
use floorplan::{bare_cell, column_x, leaf_at, leaf_height, leaf_width, row_place};
use leaf_tables::Kit;
use or_geom::{Memory, Name};
use port_lists::{Contents, Spelling, row_name, spell};
use sram_plan::Plan;
use std::alloc::Global;

/// The cell of the array: its rows, of which every other one is mirrored. `name` is the macro's.
pub fn array_cell(
    alloc: Global,
    kit: &Kit,
    plan: &Plan,
    name: &Name,
    contents: Contents<'_>,
) -> Result<DrawnCell, Memory>
    requires kit { IsKit kit.now }
    requires plan { ArePlanNumbers (numbers_of plan.now) }
    ensures { IfOk result (λ cell. cell ≡ array_cell (organization plan.now) (layout_kit kit.now)
        (bit_cells kit.now.tech.roles (organization plan.now) contents.entry) name.now) }
{
    let mut instances = Vec::new(alloc);
    add_rows(alloc, kit, plan, name, contents, &mut instances)?;
    Ok(bare_cell(alloc, name, b"_array", instances)?)
}

/// Adds the rows, from the lowest up.
fn add_rows(
    alloc: Global,
    kit: &Kit,
    plan: &Plan,
    name: &Name,
    contents: Contents<'_>,
    instances: &mut Vec<PlacedInstance>,
) -> Result<(), Memory>
    requires kit { IsKit kit.now }
    requires plan { ArePlanNumbers (numbers_of plan.now) }
    ensures { OnOk result (instances.new.items ≡ instances.old.items ++ tabulate (bank_rows (organization plan.now))
        (row_at (layout_kit kit.now) (bit_cells kit.now.tech.roles (organization plan.now) contents.entry) name.now)) }
{
    let height = leaf_height(kit, Role::Bitcell);
    for row in 0..plan.rows {
        instances.push(row_instance(alloc, plan, name, contents, row, height)?)?;
    }
    Ok(())
}

/// A row, where bitcells are so high.
fn row_instance(
    alloc: Global,
    plan: &Plan,
    name: &Name,
    contents: Contents<'_>,
    row: u32,
    height: u32,
) -> Result<PlacedInstance, Memory>
    requires row { row ≤ 256 }
    requires height { height ≤ 65536 }
    ensures { IfOk result (λ i. (kit : LayoutKit) (roles : List RoleName) → height ≡ bit_height kit
        → i ≡ row_at kit (bit_cells roles (organization plan.now) contents.entry) name.now row) }
{
    Ok(PlacedInstance {
        name: spell(alloc, Spelling::Numbered(b"xr", row))?,
        of: row_name(alloc, plan, contents, name, row)?,
        place: row_place(row, height),
    })
}

/// The cell of the precharge cells, one a column. `name` is the macro's.
pub fn pre_cell(alloc: Global, kit: &Kit, plan: &Plan, name: &Name) -> Result<DrawnCell, Memory>
    requires kit { IsKit kit.now }
    requires plan { ArePlanNumbers (numbers_of plan.now) }
    ensures { IfOk result (λ cell. cell ≡ pre_cell (organization plan.now) (layout_kit kit.now) name.now) }
{
    let mut instances = Vec::new(alloc);
    add_precharges(alloc, kit, plan, &mut instances)?;
    Ok(bare_cell(alloc, name, b"_pre", instances)?)
}

/// Adds the precharge cells.
fn add_precharges(
    alloc: Global,
    kit: &Kit,
    plan: &Plan,
    instances: &mut Vec<PlacedInstance>,
) -> Result<(), Memory>
    requires kit { IsKit kit.now }
    requires plan { ArePlanNumbers (numbers_of plan.now) }
    ensures { OnOk result (instances.new.items ≡ instances.old.items ++ tabulate (columns_of (organization plan.now))
        (precharge_at (organization plan.now) (layout_kit kit.now))) }
{
    let width = leaf_width(kit, Role::Bitcell);
    for column in 0..plan.columns {
        let x = column_x(0, column, width);
        let name = Spelling::Numbered(b"xp", column);
        instances.push(leaf_at(alloc, kit, Role::Precharge, name, x, 0)?)?;
    }
    Ok(())
}
