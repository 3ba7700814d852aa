ghost use Rattle.std.specs.Prelude.{◌≡◌, ◌<◌, ◌≤◌, ◌⊎◌, length, IfOk};
ghost use Rattle.sram_netlist.specs.Organization.{power_of_two};
ghost use Rattle.sram_netlist.specs.Netlist.{enables_of, row_gate};
ghost use Rattle.sram_plan.specs.PlanNumbers.{organization, used_groups};

use cell_roles::Role;
use sram_plan::Plan;
use std::alloc::{AllocError, Global};

/// The sizes of the groups of row bits that a plan uses, low bits first.
pub fn groups_of(alloc: Global, plan: &Plan) -> Result<Vec<u32>, AllocError>
    ensures { IfOk result (λ groups. groups.items ≡ used_groups plan.now.groups) }
{
    plan.groups
        .iter()
        .copied()
        .filter(|bits| *bits > 0)
        .collect(alloc)
}

/// How many numbers so many bits make.
pub fn lines_of(bits: u32) -> u32
    requires { bits ≤ 8 }
    ensures value { result ≡ power_of_two bits }
    ensures some { 0 < result }
{
    let mut lines = 1;
    for _ in 0..bits {
        lines *= 2;
    }
    lines
}

/// How many write enables a bank has: one for each mask, or one, but none where nothing is written.
pub fn enables_of(plan: &Plan) -> u32
    ensures { result ≡ enables_of (organization plan.now) }
{
    if plan.write_size == 0 {
        0
    } else if plan.masks == 0 {
        1
    } else {
        plan.masks
    }
}

/// What the gate of a row over these groups is.
pub fn row_gate_role(groups: &[u32]) -> Role
    requires { (length groups.now ≡ 2) ⊎ (length groups.now ≡ 3) }
    ensures { result ≡ row_gate groups.now }
{
    if groups.len() == 3 {
        Role::RowNand3
    } else {
        Role::RowNand2
    }
}
