ghost use Rattle.std.specs.Prelude.{◌≡◌, ◌<◌, ◌≤◌, ◌++◌, IfOk, OnOk};
ghost use Rattle.leaf_tables.specs.Kits.{IsKit};
ghost use Rattle.sram_netlist.specs.Organization.{columns_of, bank_rows};
ghost use Rattle.sram_netlist.specs.InstanceList.{tabulate};
ghost use Rattle.sram_netlist.specs.Numbers.{ArePlanNumbers};
ghost use Rattle.sram_plan.specs.PlanNumbers.{numbers_of, organization};
ghost use Rattle.port_lists.specs.Contents.{bit_cells, IsContents};
ghost use Rattle.macro_layout.specs.Places.{drive_width};
ghost use Rattle.macro_layout.specs.Cells.{row_cell, row_bit_at};
ghost use Rattle.floorplan.specs.LayoutOfKit.{layout_kit};

use cell_builder::{DrawnCell, PlacedInstance};
use cell_roles::Role;
use floorplan::{cell_at, column_x, leaf_at, leaf_width, unwired_cell};
use leaf_tables::Kit;
use or_geom::{Memory, Name};
use port_lists::{Contents, Spelling, bit_cell, groups_of, row_gate_role, row_name};
use sram_plan::Plan;
use std::alloc::Global;

/// The cell of a row: its gate, its driver and the cells of its bits, side by side. `name` is the macro's.
pub fn row_cell(
    alloc: Global,
    kit: &Kit,
    plan: &Plan,
    name: &Name,
    contents: Contents<'_>,
    row: u32,
) -> Result<DrawnCell, Memory>
    requires kit { IsKit kit.now }
    requires plan { ArePlanNumbers (numbers_of plan.now) }
    requires contents { IsContents (organization plan.now) contents }
    requires row { row < bank_rows (organization plan.now) }
    ensures { IfOk result (λ cell. cell ≡ row_cell (organization plan.now) (layout_kit kit.now)
        (bit_cells kit.now.tech.roles (organization plan.now) contents.entry) name.now row) }
{
    let groups = groups_of(alloc, plan)?;
    let gate = row_gate_role(&groups);
    let gate_width = leaf_width(kit, gate);
    let drive_width = gate_width + leaf_width(kit, Role::Driver);
    let mut instances = Vec::new(alloc);
    instances.push(leaf_at(alloc, kit, gate, Spelling::Word(b"xnand"), 0, 0)?)?;
    let driver = Spelling::Word(b"xdrv");
    instances.push(leaf_at(alloc, kit, Role::Driver, driver, gate_width, 0)?)?;
    add_bits(alloc, kit, plan, contents, row, drive_width, &mut instances)?;
    Ok(unwired_cell(
        alloc,
        row_name(alloc, plan, contents, name, row)?,
        instances,
    ))
}

/// Adds the cells of a row's bits, one a column, the first at `from`.
fn add_bits(
    alloc: Global,
    kit: &Kit,
    plan: &Plan,
    contents: Contents<'_>,
    row: u32,
    from: u32,
    instances: &mut Vec<PlacedInstance>,
) -> Result<(), Memory>
    requires kit { IsKit kit.now }
    requires plan { ArePlanNumbers (numbers_of plan.now) }
    requires contents { IsContents (organization plan.now) contents }
    requires row { row < bank_rows (organization plan.now) }
    requires from { from ≡ drive_width (organization plan.now) (layout_kit kit.now) }
    requires few { from ≤ 131072 }
    ensures { OnOk result (instances.new.items ≡ instances.old.items ++ tabulate (columns_of (organization plan.now))
        (row_bit_at (organization plan.now) (layout_kit kit.now)
        (bit_cells kit.now.tech.roles (organization plan.now) contents.entry) row)) }
{
    let width = leaf_width(kit, Role::Bitcell);
    for column in 0..plan.columns {
        let x = column_x(from, column, width);
        let name = Spelling::Numbered(b"xb", column);
        let cell = bit_cell(plan, kit.tech.roles.as_slice(), contents, row, column);
        instances.push(cell_at(alloc, cell, name, x, 0)?)?;
    }
    Ok(())
}
