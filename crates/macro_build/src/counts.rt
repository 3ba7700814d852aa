ghost use Rattle.std.specs.Prelude.{◌≡◌, ◌≤◌, ℕ, length};
ghost use Rattle.std.specs.List.{AllByRecursion};
ghost use Rattle.sram_netlist.specs.InstanceList.{bank_leaves, fixed_cells, leaf_instances, logic_cells};
ghost use Rattle.sram_netlist.specs.Netlist.{enables_of};
ghost use Rattle.sram_netlist.specs.Numbers.{ArePlanNumbers};
ghost use Rattle.sram_plan.specs.PlanNumbers.{numbers_of, organization};
ghost use Rattle.macro_build.specs.Counts.{enable_cell_count, groups_count, line_gate_count};

use port_lists::{enables_of, lines_of};
use sram_plan::{Plan, inputs_of};

/// The gates of the lines that so many bits choose.
fn line_count(bits: u32) -> u64
    requires { bits ≤ 3 }
    ensures count { result ≡ line_gate_count bits }
    ensures few { result ≤ 16 }
{
    if bits == 0 {
        0
    } else {
        2 * u64::from(lines_of(bits))
    }
}

/// The gates of the predecode lines of all groups.
fn groups_count(groups: &[u32]) -> u64
    requires small { AllByRecursion (λ bits. bits ≤ 3) groups.now }
    requires few { length groups.now ≤ 3 }
    ensures count { result ≡ groups_count groups.now }
    ensures few { result ≤ 48 }
{
    let mut count = 0;
    let mut rest = groups;
    while let Some((bits, others)) = rest.split_first() {
        count += line_count(*bits);
        rest = others;
    }
    count
}

/// The gates of the write enables of all banks.
fn enable_cell_count(plan: &Plan) -> u64
    requires { ArePlanNumbers (numbers_of plan.now) }
    ensures count { result ≡ enable_cell_count plan.now.bank_bits plan.now.masks (enables_of (organization plan.now)) }
    ensures few { result ≤ 2048 }
{
    if plan.bank_bits == 0 && plan.masks == 0 {
        0
    } else {
        u64::from(lines_of(plan.bank_bits)) * (2 * u64::from(enables_of(plan)))
    }
}

/// The cells of clock and control.
fn fixed_count(write_size: u32) -> u64
    ensures count { result ≡ length (fixed_cells write_size) }
    ensures few { result ≤ 14 }
{
    if write_size == 0 { 8 } else { 14 }
}

/// The cells of the logic row.
fn logic_count(plan: &Plan) -> u64
    requires { ArePlanNumbers (numbers_of plan.now) }
    ensures { result ≡ length (logic_cells (organization plan.now)) }
{
    let fixed = fixed_count(plan.write_size) + 2 * u64::from(plan.addr_bits);
    let lines = line_count(plan.col_bits) + groups_count(&plan.groups);
    let latches = u64::from(inputs_of(plan)) + u64::from(plan.masks);
    fixed + lines + latches + 3 * line_count(plan.bank_bits) + enable_cell_count(plan)
}

/// The leaf instances of a bank.
fn bank_count(plan: &Plan) -> u64
    requires { ArePlanNumbers (numbers_of plan.now) }
    ensures { (bank : ℕ) → result ≡ length (bank_leaves (organization plan.now) bank) }
{
    let columns = u64::from(plan.columns);
    let data = u64::from(inputs_of(plan)) + u64::from(plan.word_size);
    u64::from(plan.rows) * (columns + 2) + 2 * columns + data
}

/// The leaf instances of a memory.
pub fn leaf_count(plan: &Plan) -> u64
    requires { ArePlanNumbers (numbers_of plan.now) }
    ensures { result ≡ length (leaf_instances (organization plan.now)) }
{
    logic_count(plan) + u64::from(plan.banks) * bank_count(plan)
}
