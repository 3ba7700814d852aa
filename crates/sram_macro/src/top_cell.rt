ghost use Rattle.std.specs.Prelude.{◌≡◌, ◌<◌, ◌++◌, ◌^◌, pos, ◌*ℤ◌, IfOk, OnOk};
ghost use Rattle.sram_netlist.specs.InstanceList.{tabulate};
ghost use Rattle.sram_netlist.specs.Names.{bank_name};
ghost use Rattle.sram_netlist.specs.Numbers.{ArePlanNumbers};
ghost use Rattle.sram_netlist.specs.Organization.{banks_of};
ghost use Rattle.sram_plan.specs.PlanNumbers.{numbers_of, organization};
ghost use Rattle.port_lists.specs.Spelled.{spelled};
ghost use Rattle.macro_layout.specs.Places.{upright};
ghost use Rattle.macro_layout.specs.Cells.{macro_cell, logic_at, bank_at};
ghost use Rattle.floorplan.specs.FloorplanNumbers.{floorplan_of, IsUpTo, IsNearFloorplan};

use cell_builder::{DrawnCell, PlacedInstance, PlacedLabel};
use floorplan::FloorplanNumbers;
use or_geom::{Items, Memory, Name, Orient, Place, Point, Shape};
use port_lists::{Spelling, part_name, spell};
use sram_plan::Plan;
use std::alloc::Global;

/// The cell of the macro: the logic row and the banks, with these wires and labels.
pub fn macro_cell(
    alloc: Global,
    plan: &Plan,
    name: &Name,
    floorplan: &FloorplanNumbers,
    wires: Vec<Shape>,
    labels: Vec<PlacedLabel>,
) -> Result<DrawnCell, Memory>
    requires plan { ArePlanNumbers (numbers_of plan.now) }
    requires near { IsNearFloorplan floorplan.now }
    ensures { IfOk result (λ cell. cell ≡ macro_cell (organization plan.now)
        (floorplan_of floorplan.now) name.now wires.items labels.items) }
{
    let mut instances = Vec::new(alloc);
    instances.push(logic_instance(alloc, name, floorplan)?)?;
    add_banks(alloc, plan, name, floorplan, &mut instances)?;
    Ok(DrawnCell {
        name: part_name(alloc, name, b"")?,
        instances: Items::from_vec(instances),
        wires: Items::from_vec(wires),
        labels: Items::from_vec(labels),
    })
}

/// A place without a turn.
fn unturned(x: i64, y: i64) -> Place
    ensures { result ≡ upright x y }
{
    Place {
        orient: Orient::R0,
        at: Point { x, y },
    }
}

/// The logic row as it stands in the macro.
fn logic_instance(
    alloc: Global,
    name: &Name,
    floorplan: &FloorplanNumbers,
) -> Result<PlacedInstance, Memory>
    ensures { IfOk result (λ i. i ≡ logic_at (floorplan_of floorplan.now) name.now) }
{
    Ok(PlacedInstance {
        name: spell(alloc, Spelling::Word(b"xlogic"))?,
        of: part_name(alloc, name, b"_logic")?,
        place: unturned(floorplan.logic_x, 0),
    })
}

/// The name of a bank's instance: without a number where there is one bank.
pub fn bank_spelling(plan: &Plan, bank: u32) -> Spelling
    ensures { spelled result ≡ bank_name plan.now.bank_bits bank }
{
    if plan.bank_bits == 0 {
        Spelling::Word(b"xbank")
    } else {
        Spelling::Numbered(b"xbank", bank)
    }
}

/// Where a bank begins.
fn bank_x(bank: u32, width: i64) -> i64
    requires few { bank < 4 }
    requires width { IsUpTo (2 ^ 25) width }
    ensures { result ≡ pos bank *ℤ width }
{
    i64::from(bank) * width
}

/// A bank as it stands in the macro.
fn bank_instance(
    alloc: Global,
    plan: &Plan,
    name: &Name,
    floorplan: &FloorplanNumbers,
    bank: u32,
) -> Result<PlacedInstance, Memory>
    requires near { IsNearFloorplan floorplan.now }
    requires few { bank < 4 }
    ensures { IfOk result (λ i. i ≡ bank_at (organization plan.now) (floorplan_of floorplan.now) name.now bank) }
{
    let x = bank_x(bank, floorplan.bank_width);
    Ok(PlacedInstance {
        name: spell(alloc, bank_spelling(plan, bank))?,
        of: part_name(alloc, name, b"_bank")?,
        place: unturned(x, floorplan.write_y),
    })
}

/// Adds the banks, from the left.
fn add_banks(
    alloc: Global,
    plan: &Plan,
    name: &Name,
    floorplan: &FloorplanNumbers,
    instances: &mut Vec<PlacedInstance>,
) -> Result<(), Memory>
    requires plan { ArePlanNumbers (numbers_of plan.now) }
    requires near { IsNearFloorplan floorplan.now }
    ensures { OnOk result (instances.new.items ≡ instances.old.items ++ tabulate (banks_of (organization plan.now))
        (bank_at (organization plan.now) (floorplan_of floorplan.now) name.now)) }
{
    for bank in 0..plan.banks {
        instances.push(bank_instance(alloc, plan, name, floorplan, bank)?)?;
    }
    Ok(())
}
