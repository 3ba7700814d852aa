ghost use Rattle.std.specs.Prelude.{◌≡◌, ◌++◌, map, IfOk};
ghost use Rattle.cell_roles.specs.Roles.{supplies};
ghost use Rattle.sram_deck.specs.Deck.{subckt_instance, made_subckt};
ghost use Rattle.port_lists.specs.Cells.{cell_in, fixed_cell_in, named_cell};
ghost use Rattle.port_lists.specs.Spelled.{spelled};

use crate::names::{NameList, Spelling, spell};
use cell_roles::{LeafRole, Role};
use netlist::{Instance, Subckt};
use or_geom::{Items, Memory, Name};
use std::alloc::Global;
use tech_rules::RoleName;

/// The name of the cell that the technology gives a role of this name, or nothing where it gives none.
fn named_cell<'a>(roles: &'a [RoleName], role: &[u8]) -> &'a [u8]
    ensures { result.now ≡ named_cell roles.now role.now }
{
    let mut rest = roles;
    while let Some((entry, others)) = rest.split_first() {
        if entry.role.as_bytes() == role {
            return entry.cell.as_bytes();
        }
        rest = others;
    }
    &[]
}

/// The name of the cell that the technology gives a role of a read-write memory, or nothing where it gives none.
pub fn cell_of(roles: &[RoleName], role: Role) -> &[u8]
    ensures { result.now ≡ cell_in roles.now role }
{
    named_cell(roles, role.name().as_bytes())
}

/// The name of the cell that the technology has for a fixed bit, or nothing where it has none.
pub fn fixed_cell_of(roles: &[RoleName], bit: bool) -> &[u8]
    ensures { result.now ≡ fixed_cell_in roles.now bit }
{
    named_cell(roles, LeafRole::Fixed(bit).name().as_bytes())
}

/// The names of the cells of these roles.
pub fn cell_names(alloc: Global, names: &[RoleName], roles: &[Role]) -> Result<Vec<Name>, Memory>
    ensures { IfOk result (λ cells. cells.items ≡ map (cell_in names.now) roles.now) }
{
    let mut cells = Vec::new(alloc);
    for role in roles {
        cells.push(Name::from_bytes(alloc, cell_of(names, *role))?)?;
    }
    Ok(cells)
}

/// An instance of a role's cell: its nodes, and behind them the supplies.
pub fn leaf_instance(
    alloc: Global,
    roles: &[RoleName],
    role: Role,
    name: Spelling,
    nodes: &[Spelling],
) -> Result<Instance, Memory>
    ensures { IfOk result (λ i. i ≡ subckt_instance (spelled name) (map spelled nodes.now ++ supplies)
        (cell_in roles.now role)) }
{
    cell_instance(alloc, cell_of(roles, role), name, nodes)
}

/// An instance of a cell of this name.
pub fn cell_instance(
    alloc: Global,
    cell: &[u8],
    name: Spelling,
    nodes: &[Spelling],
) -> Result<Instance, Memory>
    ensures { IfOk result (λ i. i ≡ subckt_instance (spelled name) (map spelled nodes.now ++ supplies) cell.now) }
{
    let mut list = NameList::new(alloc);
    list.add_all(nodes)?;
    list.add_supplies()?;
    Ok(Instance {
        name: spell(alloc, name)?,
        nodes: list.into_items(),
        of: Name::from_bytes(alloc, cell)?,
    })
}

/// The name of one of the macro's subcircuits.
pub fn part_name(alloc: Global, name: &Name, part: &[u8]) -> Result<Name, Memory>
    ensures { IfOk result (λ made. made ≡ name.now ++ part.now) }
{
    let mut bytes = Vec::from_slice(alloc, name.as_bytes())?;
    bytes.extend_from_slice(part)?;
    Ok(Name::from_vec(bytes))
}

/// A subcircuit of instances alone.
pub fn subckt_of(alloc: Global, name: Name, ports: NameList, instances: Vec<Instance>) -> Subckt
    ensures { result ≡ made_subckt name ports instances.items }
{
    Subckt {
        name,
        ports: ports.into_items(),
        instances: Items::from_vec(instances),
        raw: Items::new(alloc),
    }
}
