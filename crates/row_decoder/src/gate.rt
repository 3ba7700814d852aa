ghost use Rattle.std.specs.Prelude.{◌≡◌, ◌++◌, ◌∷◌, [], map, OnOk};
ghost use Rattle.port_lists.specs.Cells.{cell_in};
ghost use Rattle.port_lists.specs.Spelled.{spelled};
ghost use Rattle.row_decoder.specs.Gates.{gate_of_role};

use cell_roles::Role;
use netlist::Instance;
use or_geom::Memory;
use port_lists::{Spelling, leaf_instance};
use std::alloc::Global;
use tech_rules::RoleName;

/// A gate of the logic row: an instance of the role's cell.
#[derive(Debug, Drop)]
pub struct LogicGate {
    pub role: Role,
    pub instance: Instance,
}

/// Adds a gate of the role; `nodes` are those before the supplies.
pub fn add_gate(
    alloc: Global,
    roles: &[RoleName],
    role: Role,
    name: Spelling,
    nodes: &[Spelling],
    row: &mut Vec<LogicGate>,
) -> Result<(), Memory>
    ensures { OnOk result (row.new.items ≡ row.old.items ++ gate_of_role (cell_in roles.now) role (spelled name)
        (map spelled nodes.now) ∷ []) }
{
    let instance = leaf_instance(alloc, roles, role, name, nodes)?;
    row.push(LogicGate { role, instance })?;
    Ok(())
}
