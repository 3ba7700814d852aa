ghost use Rattle.std.specs.Prelude.{◌≡◌, ◌++◌, map, OnOk};
ghost use Rattle.sram_netlist.specs.Organization.{addr_bits, inputs_of};
ghost use Rattle.sram_netlist.specs.Instances.{Dd, Dm};
ghost use Rattle.sram_netlist.specs.InstanceList.{tabulate, tabulate_lists, address_cells};
ghost use Rattle.sram_netlist.specs.Numbers.{ArePlanNumbers};
ghost use Rattle.sram_plan.specs.PlanNumbers.{numbers_of, organization};
ghost use Rattle.port_lists.specs.Cells.{cell_in};
ghost use Rattle.row_decoder.specs.Gates.{logic_gate};

use cell_roles::Role;
use or_geom::Memory;
use port_lists::Spelling;
use row_decoder::{LogicGate, add_gate};
use sram_plan::{Plan, inputs_of};
use std::alloc::Global;
use tech_rules::RoleName;

/// The cells of an address bit: it is latched, and inverted.
fn add_address_bit(
    alloc: Global,
    plan: &Plan,
    roles: &[RoleName],
    bit: u32,
    row: &mut Vec<LogicGate>,
) -> Result<(), Memory>
    ensures { OnOk result (row.new.items
        ≡ row.old.items ++ map (logic_gate (organization plan.now) (cell_in roles.now)) (address_cells bit)) }
{
    let latch = [
        Spelling::Indexed(b"addr0", bit),
        Spelling::Word(b"clk0"),
        Spelling::Numbered(b"a", bit),
    ];
    add_gate(
        alloc,
        roles,
        Role::Dff,
        Spelling::Numbered(b"xad", bit),
        &latch,
        row,
    )?;
    let inverter = [Spelling::Numbered(b"a", bit), Spelling::Numbered(b"n", bit)];
    add_gate(
        alloc,
        roles,
        Role::Inv,
        Spelling::Numbered(b"xai", bit),
        &inverter,
        row,
    )
}

/// The cells of the address, bit by bit.
pub fn add_address(
    alloc: Global,
    plan: &Plan,
    roles: &[RoleName],
    row: &mut Vec<LogicGate>,
) -> Result<(), Memory>
    requires { ArePlanNumbers (numbers_of plan.now) }
    ensures { OnOk result (row.new.items
        ≡ row.old.items ++ map (logic_gate (organization plan.now) (cell_in roles.now))
        (tabulate_lists (addr_bits (organization plan.now)) address_cells)) }
{
    for bit in 0..plan.addr_bits {
        add_address_bit(alloc, plan, roles, bit, row)?;
    }
    Ok(())
}

/// The latches of the data, bit by bit.
pub fn add_data_latches(
    alloc: Global,
    plan: &Plan,
    roles: &[RoleName],
    row: &mut Vec<LogicGate>,
) -> Result<(), Memory>
    ensures { OnOk result (row.new.items
        ≡ row.old.items ++ map (logic_gate (organization plan.now) (cell_in roles.now))
        (tabulate (inputs_of (organization plan.now)) Dd)) }
{
    for bit in 0..inputs_of(plan) {
        let nodes = [
            Spelling::Indexed(b"din0", bit),
            Spelling::Word(b"clk0"),
            Spelling::Numbered(b"d", bit),
        ];
        add_gate(
            alloc,
            roles,
            Role::Dff,
            Spelling::Numbered(b"xdd", bit),
            &nodes,
            row,
        )?;
    }
    Ok(())
}

/// The latches of the write mask, bit by bit.
pub fn add_mask_latches(
    alloc: Global,
    plan: &Plan,
    roles: &[RoleName],
    row: &mut Vec<LogicGate>,
) -> Result<(), Memory>
    ensures { OnOk result (row.new.items
        ≡ row.old.items ++ map (logic_gate (organization plan.now) (cell_in roles.now)) (tabulate plan.now.masks Dm)) }
{
    for mask in 0..plan.masks {
        let nodes = [
            Spelling::Indexed(b"wmask0", mask),
            Spelling::Word(b"clk0"),
            Spelling::Numbered(b"m", mask),
        ];
        add_gate(
            alloc,
            roles,
            Role::Dff,
            Spelling::Numbered(b"xdm", mask),
            &nodes,
            row,
        )?;
    }
    Ok(())
}
