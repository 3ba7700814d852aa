ghost use Rattle.std.specs.Prelude.{◌≡◌, ◌++◌, ◌∷◌, ◌≤◌, [], map, OnOk};
ghost use Rattle.sram_netlist.specs.Organization.{Organization};
ghost use Rattle.sram_netlist.specs.Instances.{Pn, Pi};
ghost use Rattle.sram_netlist.specs.Netlist.{picks, lowest_bit, gate_of};
ghost use Rattle.sram_netlist.specs.Names.{net_name, line_kind, line_name, lineb_name, gate_name, inv_name};
ghost use Rattle.sram_netlist.specs.InstanceList.{gates, line_gates};
ghost use Rattle.sram_plan.specs.PlanNumbers.{organization};
ghost use Rattle.port_lists.specs.Cells.{cell_in};
ghost use Rattle.row_decoder.specs.Gates.{logic_gate};
ghost use Rattle.port_lists.specs.Spelled.{spelled};
ghost use Rattle.row_decoder.specs.Lines.{chosen_by, pick_letter};

use crate::gate::{LogicGate, add_gate};
use cell_roles::Role;
use netlist::Instance;
use or_geom::{Memory, Name};
use port_lists::{NameList, Spelling, cell_of, lines_of, spell};
use sram_plan::Plan;
use std::alloc::Global;
use tech_rules::RoleName;

/// What the lines over some bits of an address choose.
#[derive(Clone, Copy, Debug)]
pub enum LineChoice {
    /// A word of a row.
    Column,
    /// A row, together with the lines of the other groups.
    Group(u32),
    Bank,
}

/// The lines over so many bits of an address, from bit `low` on.
#[derive(Clone, Copy, Debug)]
pub struct Lines {
    pub choice: LineChoice,
    pub low: u32,
    pub bits: u32,
}

impl LineChoice {
    /// The line with this number.
    fn line(self, number: u32) -> Spelling
        ensures { spelled result ≡ line_name (chosen_by self) number }
    {
        match self {
            LineChoice::Column => Spelling::Numbered(b"sel", number),
            LineChoice::Group(group) => Spelling::NumberedTwice(b"p", group, number),
            LineChoice::Bank => Spelling::Numbered(b"e", number),
        }
    }

    /// The line's complement.
    fn complement(self, number: u32) -> Spelling
        ensures { spelled result ≡ lineb_name (chosen_by self) number }
    {
        match self {
            LineChoice::Column => Spelling::Numbered(b"sb", number),
            LineChoice::Group(group) => Spelling::NumberedTwice(b"pb", group, number),
            LineChoice::Bank => Spelling::Numbered(b"eb", number),
        }
    }

    /// The gate that makes the complement.
    fn gate(self, number: u32) -> Spelling
        ensures { spelled result ≡ gate_name (chosen_by self) number }
    {
        match self {
            LineChoice::Column => Spelling::Numbered(b"xsn", number),
            LineChoice::Group(group) => Spelling::NumberedTwice(b"xpn", group, number),
            LineChoice::Bank => Spelling::Numbered(b"xbn", number),
        }
    }

    /// The inverter that makes the line.
    fn inverter(self, number: u32) -> Spelling
        ensures { spelled result ≡ inv_name (chosen_by self) number }
    {
        match self {
            LineChoice::Column => Spelling::Numbered(b"xsi", number),
            LineChoice::Group(group) => Spelling::NumberedTwice(b"xpi", group, number),
            LineChoice::Bank => Spelling::Numbered(b"xbi", number),
        }
    }
}

/// The latched address bits, or their complements, that make a number of so many bits from bit `low` of an address on.
fn add_picks(nodes: &mut NameList, low: u32, bits: u32, number: u32) -> Result<(), Memory>
    requires low { low ≤ 32 }
    requires bits { bits ≤ 8 }
    ensures { OnOk result ((plan : Organization)
        → nodes.new ≡ nodes.old ++ map (net_name plan) (picks low bits number)) }
{
    let mut rest = number;
    for bit in 0..bits {
        nodes.add(Spelling::Numbered(picked(rest), low + bit))?;
        rest /= 2;
    }
    Ok(())
}

/// The letter of an address bit that is 1 where the number is odd, or of its complement.
fn picked(number: u32) -> &'static [u8]
    ensures { result.now ≡ pick_letter (lowest_bit number) }
{
    if number % 2 == 1 { b"a" } else { b"n" }
}

/// What the gate of so many inputs is.
pub fn gate_role(inputs: u32) -> Role
    ensures { result ≡ gate_of inputs }
{
    match inputs {
        0 | 1 => Role::Inv,
        2 => Role::Nand2,
        _ => Role::Nand3,
    }
}

/// Adds the gate of a line, which makes its complement.
fn add_line_gate(
    alloc: Global,
    plan: &Plan,
    roles: &[RoleName],
    lines: Lines,
    number: u32,
    row: &mut Vec<LogicGate>,
) -> Result<(), Memory>
    requires low { lines.low ≤ 32 }
    requires bits { lines.bits ≤ 8 }
    requires choice { line_kind (organization plan.now) lines.low ≡ chosen_by lines.choice }
    ensures { OnOk result (row.new.items ≡ row.old.items ++ logic_gate (organization plan.now) (cell_in roles.now)
        (Pn lines.low lines.bits number) ∷ []) }
{
    let role = gate_role(lines.bits);
    let mut nodes = NameList::new(alloc);
    add_picks(&mut nodes, lines.low, lines.bits, number)?;
    nodes.add(lines.choice.complement(number))?;
    nodes.add_supplies()?;
    let instance = Instance {
        name: spell(alloc, lines.choice.gate(number))?,
        nodes: nodes.into_items(),
        of: Name::from_bytes(alloc, cell_of(roles, role))?,
    };
    row.push(LogicGate { role, instance })?;
    Ok(())
}

/// Adds the inverter of a line, which makes the line of its complement.
fn add_line_inverter(
    alloc: Global,
    plan: &Plan,
    roles: &[RoleName],
    lines: Lines,
    number: u32,
    row: &mut Vec<LogicGate>,
) -> Result<(), Memory>
    requires choice { line_kind (organization plan.now) lines.low ≡ chosen_by lines.choice }
    ensures { OnOk result (row.new.items ≡ row.old.items ++ logic_gate (organization plan.now) (cell_in roles.now)
        (Pi lines.low lines.bits number) ∷ []) }
{
    let nodes = [lines.choice.complement(number), lines.choice.line(number)];
    let name = lines.choice.inverter(number);
    add_gate(alloc, roles, Role::Inv, name, &nodes, row)
}

/// Adds the gate and the inverter of a line.
fn add_line(
    alloc: Global,
    plan: &Plan,
    roles: &[RoleName],
    lines: Lines,
    number: u32,
    row: &mut Vec<LogicGate>,
) -> Result<(), Memory>
    requires low { lines.low ≤ 32 }
    requires bits { lines.bits ≤ 8 }
    requires choice { line_kind (organization plan.now) lines.low ≡ chosen_by lines.choice }
    ensures { OnOk result (row.new.items
        ≡ row.old.items ++ map (logic_gate (organization plan.now) (cell_in roles.now))
        (line_gates lines.low lines.bits number)) }
{
    add_line_gate(alloc, plan, roles, lines, number, row)?;
    add_line_inverter(alloc, plan, roles, lines, number, row)
}

/// Adds the gates and inverters of all lines over some bits.
pub fn add_lines(
    alloc: Global,
    plan: &Plan,
    roles: &[RoleName],
    lines: Lines,
    row: &mut Vec<LogicGate>,
) -> Result<(), Memory>
    requires low { lines.low ≤ 32 }
    requires bits { lines.bits ≤ 8 }
    requires choice { line_kind (organization plan.now) lines.low ≡ chosen_by lines.choice }
    ensures { OnOk result (row.new.items
        ≡ row.old.items ++ map (logic_gate (organization plan.now) (cell_in roles.now)) (gates lines.low lines.bits)) }
{
    for number in 0..lines_of(lines.bits) {
        add_line(alloc, plan, roles, lines, number, row)?;
    }
    Ok(())
}
