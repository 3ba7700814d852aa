ghost use Rattle.std.specs.Prelude.{◌≡◌, List, [], ℕ, Option, None, Some, ◌<◌, ◌≤◌, ◌+◌, length, map, slice_index_or};
ghost use Rattle.std.specs.Prelude.{IfOk, OnOk, MatchOption};
ghost use Rattle.spice_netlist.specs.Limits.{most_pins};
ghost use Rattle.spice_netlist.specs.declared.name_index.NameIndex.{NameIndex};
ghost use Rattle.spice_netlist.specs.Found.{found};
ghost use Rattle.spice_netlist.specs.Resolved.{instances_at};
ghost use Rattle.spice_netlist.specs.Walk.{walk_at};
ghost use Rattle.spice_netlist.specs.Pins.{pins_of, pin_row};
ghost use Rattle.spice_netlist.specs.Descent.{IsWalkable, IsTableBy, AreTablesBy, ArePortTables, AreSubcktSizes};
ghost use Rattle.spice_netlist.specs.Rows.{AddsRows, net_count};

use crate::instance_path::InstancePath;
use crate::level::{WalkLevel, nets_in};
use crate::name_index::{NameIndex, index_names};
use crate::pins::add_pins;
use crate::resolved::ResolvedSubckt;
use crate::rows::RowList;
use crate::size::{Size, pin_count};
use crate::table::{entry, subckt_at};
use or_geom::Memory;
use std::alloc::Global;

/// The indices of the subcircuit's ports; None where there are no pins below it, since the walk doesn't go there.
fn port_table<'a>(
    alloc: Global,
    subckt: &'a ResolvedSubckt,
    pins: u64,
) -> Result<Option<NameIndex<'a>>, Memory>
    ensures { IfOk result (IsTableBy pins subckt.now.ports) }
{
    if pins == 0 {
        return Ok(None);
    }
    Ok(Some(index_names(alloc, subckt.ports.as_slice())?))
}

/// For each subcircuit the indices of its ports, if there are pins below it.
fn port_tables<'a>(
    alloc: Global,
    subckts: &'a [ResolvedSubckt],
    sizes: &[Size],
) -> Result<Vec<Option<NameIndex<'a>>>, Memory>
    ensures { IfOk result (λ tables. AreTablesBy subckts.now sizes.now tables.items) }
{
    let mut tables = Vec::new(alloc);
    for (index, subckt) in subckts.iter().enumerate() {
        tables.push(port_table(alloc, subckt, pin_count(sizes, index))?)?;
    }
    Ok(tables)
}

/// The indices of the ports of the subcircuit at the index, if there are pins below it.
fn table_at<'a, 't>(tables: &'t [Option<NameIndex<'a>>], index: usize) -> Option<&'t NameIndex<'a>>
    requires { index < length tables.now }
    ensures { (other : Option NameIndex)
        → MatchOption result (slice_index_or tables.now index other ≡ None)
        (λ table. slice_index_or tables.now index other ≡ Some table.now) }
{
    match entry(tables, index) {
        Some(table) => Some(table),
        None => None,
    }
}

/// The level of the top. Its nets are all local, since `none` has no names.
fn top_level<'a, 't>(
    alloc: Global,
    subckts: &'a [ResolvedSubckt],
    none: &'t NameIndex<'a>,
    top: usize,
) -> WalkLevel<'a, 't>
    requires { top < length subckts.now }
    ensures instances { result.instances.now ≡ instances_at subckts.now top }
    ensures ports { result.ports.now ≡ none.now }
    ensures nets { result.nets.items ≡ [] }
    ensures prefix { result.prefix ≡ 0 }
{
    WalkLevel {
        instances: subckt_at(subckts, top).instances.as_slice(),
        ports: none,
        nets: Vec::new(alloc),
        prefix: 0,
    }
}

/// Adds the rows of the pins of the leaf instances below the top, in the order of a depth-first walk. `tables` has the
/// indices of the ports of each subcircuit with pins below it, and `none` has no names.
///
/// The walk keeps its place in a vector, so that the stack doesn't grow with the depth. It goes only where there are
/// pins, and writes each once.
fn walk<'a, 't>(
    alloc: Global,
    subckts: &'a [ResolvedSubckt],
    tables: &'t [Option<NameIndex<'a>>],
    none: &'t NameIndex<'a>,
    top: usize,
    rows: &mut RowList,
) -> Result<(), Memory>
    requires inside { top < length subckts.now }
    requires walkable { IsWalkable subckts.now top }
    requires tables { ArePortTables subckts.now top tables.now }
    requires none { (name : List ℕ) → found none.now name ≡ None }
    requires few { net_count rows.old + length (pins_of subckts.now (walk_at subckts.now top)) ≤ most_pins }
    ensures { OnOk result (AddsRows rows.old rows.new
        (map (pin_row subckts.now) (pins_of subckts.now (walk_at subckts.now top)))) }
{
    let mut instance_path = InstancePath::new(alloc);
    let mut trail = Vec::new(alloc);
    let mut level = top_level(alloc, subckts, none, top);
    'steps: loop {
        let Some((instance, rest)) = level.instances.split_first() else {
            let Some(outer) = trail.pop() else {
                return Ok(());
            };
            level = outer;
            instance_path.back_to(level.prefix);
            continue;
        };
        level.instances = rest;
        let Some(index) = instance.index else {
            continue;
        };
        let nets = nets_in(alloc, &level, instance.nodes.as_slice())?;
        add_pins(alloc, subckts, instance, index, &instance_path, &nets, rows)?;
        let Some(ports) = table_at(tables, index) else {
            continue;
        };
        let instances = subckt_at(subckts, index).instances.as_slice();
        instance_path.enter(instance.name.as_bytes())?;
        trail.push(level)?;
        level = WalkLevel {
            instances,
            ports,
            nets,
            prefix: instance_path.path.len(),
        };
    }
}

/// Adds the rows of the pins of the leaf instances below the top, in the order of a depth-first walk.
pub fn add_rows_below(
    alloc: Global,
    subckts: &[ResolvedSubckt],
    sizes: &[Size],
    top: usize,
    rows: &mut RowList,
) -> Result<(), Memory>
    requires inside { top < length subckts.now }
    requires walkable { IsWalkable subckts.now top }
    requires sizes { AreSubcktSizes subckts.now top sizes.now }
    requires few { net_count rows.old + length (pins_of subckts.now (walk_at subckts.now top)) ≤ most_pins }
    ensures { OnOk result (AddsRows rows.old rows.new
        (map (pin_row subckts.now) (pins_of subckts.now (walk_at subckts.now top)))) }
{
    let tables = port_tables(alloc, subckts, sizes)?;
    let none = index_names(alloc, &[])?;
    walk(alloc, subckts, &tables, &none, top, rows)
}
