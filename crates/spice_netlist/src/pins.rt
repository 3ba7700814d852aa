ghost use Rattle.std.specs.Prelude.{◌≡◌, ◌+◌, ◌<◌, ◌≤◌, [], length, map, slice_index_or, OnOk, IfOk};
ghost use Rattle.spice_netlist.specs.Limits.{most_pins};
ghost use Rattle.spice_netlist.specs.Pins.{pins_in, pin_row};
ghost use Rattle.spice_netlist.specs.Levels.{level_key, AreWithinPath, own_visit, leaf_rows};
ghost use Rattle.spice_netlist.specs.Rows.{AddsRows, net_count};

use crate::instance_path::InstancePath;
use crate::level::LevelNet;
use crate::resolved::{ResolvedInstance, ResolvedSubckt};
use crate::rows::RowList;
use crate::table::subckt_at;
use crate::text::concatenated;
use or_geom::{Items, Memory, Name};
use std::alloc::Global;

/// The name at the index, which is empty where there is none.
fn port_of(ports: &[Name], index: usize) -> &[u8]
    ensures { result.now ≡ slice_index_or ports.now index [] }
{
    match ports.get(index) {
        Some(port) => port.as_bytes(),
        None => b"",
    }
}

/// The whole text of the net, where this is the path.
fn net_bytes(alloc: Global, net_path: &[u8], net: &LevelNet) -> Result<Items<u8>, Memory>
    requires { net.now.prefix ≤ length net_path.now }
    ensures { IfOk result (λ text. text ≡ level_key net_path.now net.now) }
{
    concatenated(alloc, &net_path[..net.prefix], net.name)
}

/// Adds the rows of an instance of the leaf.
fn add_leaf(
    alloc: Global,
    leaf: &ResolvedSubckt,
    path: &[u8],
    net_path: &[u8],
    nets: &[LevelNet],
    rows: &mut RowList,
) -> Result<(), Memory>
    requires near { AreWithinPath (length net_path.now) nets.now }
    requires few { net_count rows.old + length nets.now ≤ most_pins }
    ensures { OnOk result (AddsRows rows.old rows.new (leaf_rows leaf.now path.now net_path.now 0 nets.now)) }
{
    for (port, net) in nets.iter().enumerate() {
        let pin = port_of(leaf.ports.as_slice(), port);
        let text = net_bytes(alloc, net_path, net)?;
        rows.add(alloc, path, leaf.name.as_bytes(), pin, text.as_slice())?;
    }
    Ok(())
}

/// Adds the rows of the instance itself, where it is one of a leaf. The path leads to where it stands, and `nets` are
/// those of its nodes.
pub fn add_pins(
    alloc: Global,
    subckts: &[ResolvedSubckt],
    instance: &ResolvedInstance,
    index: usize,
    instance_path: &InstancePath,
    nets: &[LevelNet],
    rows: &mut RowList,
) -> Result<(), Memory>
    requires within { index < length subckts.now }
    requires near { AreWithinPath (length instance_path.now.net.items) nets.now }
    requires few { net_count rows.old + length
        (pins_in subckts.now (own_visit instance_path.now instance.now index nets.now)) ≤ most_pins }
    ensures { OnOk result (AddsRows rows.old rows.new
        (map (pin_row subckts.now) (pins_in subckts.now (own_visit instance_path.now instance.now index nets.now)))) }
{
    let subckt = subckt_at(subckts, index);
    if !subckt.leaf {
        return Ok(());
    }
    let path = concatenated(alloc, &instance_path.path, instance.name.as_bytes())?;
    add_leaf(
        alloc,
        subckt,
        path.as_slice(),
        &instance_path.net,
        nets,
        rows,
    )
}
