ghost use Rattle.std.specs.Prelude.{◌≡◌, ◌++◌, ◌∷◌, [], ◌≤◌, map, length, IfOk, OnOk};
ghost use Rattle.sram_netlist.specs.Organization.{power_of_two};
ghost use Rattle.sram_netlist.specs.Netlist.{enable_inputs, enables_of, bank_input, mask_input};
ghost use Rattle.sram_netlist.specs.Names.{net_name};
ghost use Rattle.sram_netlist.specs.Instances.{Gn};
ghost use Rattle.sram_netlist.specs.InstanceList.{tabulate_lists, bank_cells, banks_cells, enable_gates, enable_cells};
ghost use Rattle.sram_netlist.specs.Numbers.{ArePlanNumbers};
ghost use Rattle.sram_plan.specs.PlanNumbers.{numbers_of, organization};
ghost use Rattle.port_lists.specs.Cells.{cell_in};
ghost use Rattle.row_decoder.specs.Gates.{logic_gate};
ghost use Rattle.control_logic.specs.BankGates.{bank_enable_gates, bank_word_line_gates, bank_sense_gates};

use cell_roles::Role;
use netlist::Instance;
use or_geom::{Memory, Name};
use port_lists::{NameList, Spelling, cell_of, enables_of, spell};
use row_decoder::{LineChoice, Lines, LogicGate, add_gate, add_lines, gate_role};
use sram_plan::Plan;
use std::alloc::Global;
use tech_rules::RoleName;

/// What a bank's gates of one enable are called, and what their nets: the instances of the NAND and the inverter, the
/// enable, and its complement.
#[derive(Clone, Copy)]
struct EnableNames {
    nand: &'static [u8],
    inverter: &'static [u8],
    enable: &'static [u8],
    complement: &'static [u8],
}

/// The gates of one of a bank's enables.
fn add_bank_enable(
    alloc: Global,
    roles: &[RoleName],
    names: EnableNames,
    bank: u32,
    row: &mut Vec<LogicGate>,
) -> Result<(), Memory>
    ensures { OnOk result (row.new.items
        ≡ row.old.items ++ bank_enable_gates (cell_in roles.now) names bank) }
{
    let complement = Spelling::Numbered(names.complement, bank);
    let inputs = [
        Spelling::Word(names.enable),
        Spelling::Numbered(b"e", bank),
        complement,
    ];
    let nand = Spelling::Numbered(names.nand, bank);
    add_gate(alloc, roles, Role::Nand2, nand, &inputs, row)?;
    let enable = [complement, Spelling::Numbered(names.enable, bank)];
    let inverter = Spelling::Numbered(names.inverter, bank);
    add_gate(alloc, roles, Role::Inv, inverter, &enable, row)
}

/// The gates of a bank's word line enable.
fn add_bank_word_line(
    alloc: Global,
    roles: &[RoleName],
    bank: u32,
    row: &mut Vec<LogicGate>,
) -> Result<(), Memory>
    ensures { OnOk result (row.new.items ≡ row.old.items ++ bank_word_line_gates (cell_in roles.now) bank) }
{
    let names = EnableNames {
        nand: b"xln",
        inverter: b"xli",
        enable: b"wlen",
        complement: b"lb",
    };
    add_bank_enable(alloc, roles, names, bank, row)
}

/// The gates of a bank's sense enable.
fn add_bank_sense(
    alloc: Global,
    roles: &[RoleName],
    bank: u32,
    row: &mut Vec<LogicGate>,
) -> Result<(), Memory>
    ensures { OnOk result (row.new.items ≡ row.old.items ++ bank_sense_gates (cell_in roles.now) bank) }
{
    let names = EnableNames {
        nand: b"xkn",
        inverter: b"xki",
        enable: b"sen",
        complement: b"kb",
    };
    add_bank_enable(alloc, roles, names, bank, row)
}

/// The gates of the word line and sense enables of each bank.
fn add_bank_enables(
    alloc: Global,
    plan: &Plan,
    roles: &[RoleName],
    row: &mut Vec<LogicGate>,
) -> Result<(), Memory>
    requires { ArePlanNumbers (numbers_of plan.now) }
    ensures { OnOk result (row.new.items
        ≡ row.old.items ++ map (logic_gate (organization plan.now) (cell_in roles.now))
        (tabulate_lists (power_of_two plan.now.bank_bits) bank_cells)) }
{
    for bank in 0..plan.banks {
        add_bank_word_line(alloc, roles, bank, row)?;
        add_bank_sense(alloc, roles, bank, row)?;
    }
    Ok(())
}

/// The gates of the bank choices and of each bank's enables, where there are several banks.
pub fn add_bank_choices(
    alloc: Global,
    plan: &Plan,
    roles: &[RoleName],
    row: &mut Vec<LogicGate>,
) -> Result<(), Memory>
    requires { ArePlanNumbers (numbers_of plan.now) }
    ensures { OnOk result (row.new.items
        ≡ row.old.items ++ map (logic_gate (organization plan.now) (cell_in roles.now))
        (banks_cells (organization plan.now) plan.now.bank_bits)) }
{
    if plan.bank_bits == 0 {
        return Ok(());
    }
    let lines = Lines {
        choice: LineChoice::Bank,
        low: plan.addr_bits - plan.bank_bits,
        bits: plan.bank_bits,
    };
    add_lines(alloc, plan, roles, lines, row)?;
    add_bank_enables(alloc, plan, roles, row)?;
    Ok(())
}

/// The inputs of the gate of a write enable: the macro's write enable, then the bank where there are several, then the
/// mask where there are masks. Answers how many they are.
fn add_enable_inputs(nodes: &mut NameList, plan: &Plan, bank: u32, mask: u32) -> Result<u32, Memory>
    requires { ArePlanNumbers (numbers_of plan.now) }
    ensures nodes { IfOk result (λ _. nodes.new ≡ nodes.old ++ map (net_name (organization plan.now))
        (enable_inputs (organization plan.now) bank mask)) }
    ensures count { IfOk result (λ inputs. inputs ≡ length (enable_inputs (organization plan.now) bank mask)) }
{
    nodes.add(Spelling::Word(b"wen"))?;
    let banks = add_bank_input(nodes, plan, bank)?;
    let masks = add_mask_input(nodes, plan, mask)?;
    Ok(1 + banks + masks)
}

/// The bank's line where there are several banks.
fn add_bank_input(nodes: &mut NameList, plan: &Plan, bank: u32) -> Result<u32, Memory>
    requires { ArePlanNumbers (numbers_of plan.now) }
    ensures nodes { IfOk result (λ _. nodes.new ≡ nodes.old ++ map (net_name (organization plan.now))
        (bank_input (organization plan.now) plan.now.bank_bits bank)) }
    ensures count { IfOk result (λ inputs. inputs
        ≡ length (bank_input (organization plan.now) plan.now.bank_bits bank)) }
    ensures few { IfOk result (λ inputs. inputs ≤ 1) }
{
    if plan.bank_bits == 0 {
        return Ok(0);
    }
    nodes.add(Spelling::Numbered(b"e", bank))?;
    Ok(1)
}

/// The mask bit where there are masks.
fn add_mask_input(nodes: &mut NameList, plan: &Plan, mask: u32) -> Result<u32, Memory>
    ensures nodes { IfOk result (λ _. nodes.new ≡ nodes.old ++ map (net_name (organization plan.now))
        (mask_input plan.now.masks mask)) }
    ensures count { IfOk result (λ inputs. inputs ≡ length (mask_input plan.now.masks mask)) }
    ensures few { IfOk result (λ inputs. inputs ≤ 1) }
{
    if plan.masks == 0 {
        return Ok(0);
    }
    nodes.add(Spelling::Numbered(b"m", mask))?;
    Ok(1)
}

/// Adds the gate of a bank's write enable for a mask, which makes its complement.
fn add_enable_gate(
    alloc: Global,
    plan: &Plan,
    roles: &[RoleName],
    bank: u32,
    mask: u32,
    row: &mut Vec<LogicGate>,
) -> Result<(), Memory>
    requires { ArePlanNumbers (numbers_of plan.now) }
    ensures { OnOk result (row.new.items ≡ row.old.items ++ logic_gate (organization plan.now) (cell_in roles.now)
        (Gn bank mask) ∷ []) }
{
    let mut nodes = NameList::new(alloc);
    let inputs = add_enable_inputs(&mut nodes, plan, bank, mask)?;
    nodes.add(Spelling::NumberedTwice(b"wx", bank, mask))?;
    nodes.add_supplies()?;
    let role = gate_role(inputs);
    let instance = Instance {
        name: spell(alloc, Spelling::NumberedTwice(b"xgn", bank, mask))?,
        nodes: nodes.into_items(),
        of: Name::from_bytes(alloc, cell_of(roles, role))?,
    };
    row.push(LogicGate { role, instance })?;
    Ok(())
}

/// The gate of a bank's write enable for a mask, and its inverter.
fn add_enable(
    alloc: Global,
    plan: &Plan,
    roles: &[RoleName],
    bank: u32,
    mask: u32,
    row: &mut Vec<LogicGate>,
) -> Result<(), Memory>
    requires { ArePlanNumbers (numbers_of plan.now) }
    ensures { OnOk result (row.new.items
        ≡ row.old.items ++ map (logic_gate (organization plan.now) (cell_in roles.now)) (enable_gates bank mask)) }
{
    add_enable_gate(alloc, plan, roles, bank, mask, row)?;
    let nodes = [
        Spelling::NumberedTwice(b"wx", bank, mask),
        Spelling::NumberedTwice(b"we", bank, mask),
    ];
    add_gate(
        alloc,
        roles,
        Role::Inv,
        Spelling::NumberedTwice(b"xgi", bank, mask),
        &nodes,
        row,
    )?;
    Ok(())
}

/// The gates of a bank's write enables.
fn add_enables_of(
    alloc: Global,
    plan: &Plan,
    roles: &[RoleName],
    bank: u32,
    row: &mut Vec<LogicGate>,
) -> Result<(), Memory>
    requires { ArePlanNumbers (numbers_of plan.now) }
    ensures { OnOk result (row.new.items
        ≡ row.old.items ++ map (logic_gate (organization plan.now) (cell_in roles.now))
        (tabulate_lists (enables_of (organization plan.now)) (enable_gates bank))) }
{
    for mask in 0..enables_of(plan) {
        add_enable(alloc, plan, roles, bank, mask, row)?;
    }
    Ok(())
}

/// The gates of the write enables of all banks.
fn add_enables_of_banks(
    alloc: Global,
    plan: &Plan,
    roles: &[RoleName],
    row: &mut Vec<LogicGate>,
) -> Result<(), Memory>
    requires { ArePlanNumbers (numbers_of plan.now) }
    ensures { OnOk result (row.new.items
        ≡ row.old.items ++ map (logic_gate (organization plan.now) (cell_in roles.now))
        (tabulate_lists (power_of_two plan.now.bank_bits) (λ bank. tabulate_lists (enables_of (organization plan.now))
        (enable_gates bank)))) }
{
    for bank in 0..plan.banks {
        add_enables_of(alloc, plan, roles, bank, row)?;
    }
    Ok(())
}

/// The gates of the write enables, where there are several banks or masks.
pub fn add_write_enable_gates(
    alloc: Global,
    plan: &Plan,
    roles: &[RoleName],
    row: &mut Vec<LogicGate>,
) -> Result<(), Memory>
    requires { ArePlanNumbers (numbers_of plan.now) }
    ensures { OnOk result (row.new.items
        ≡ row.old.items ++ map (logic_gate (organization plan.now) (cell_in roles.now))
        (enable_cells plan.now.bank_bits plan.now.masks (enables_of (organization plan.now)))) }
{
    if plan.bank_bits == 0 && plan.masks == 0 {
        return Ok(());
    }
    add_enables_of_banks(alloc, plan, roles, row)?;
    Ok(())
}
