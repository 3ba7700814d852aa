ghost use Rattle.std.specs.Prelude.{◌≡◌, ◌↔◌, ◌<◌, ◌≤◌, IsTrue, IfOk, IfErr, OnOk, length, map, slice_get, Some};
ghost use Rattle.std.specs.List.Sorted.{IsStrictlySortedBy};
ghost use Rattle.or_geom.specs.ShapeOrder.{shape_order};
ghost use Rattle.cell_hierarchy.specs.FlatLists.{AreFlatLists};
ghost use Rattle.cell_hierarchy.specs.Plain.{lists_of};
ghost use Rattle.cell_roles.specs.LeafRoles.{pin_role, leaf_role_name};
ghost use Rattle.gds_library.specs.Writable.{IsWritable};
ghost use Rattle.spice_text.specs.Words.{lower};
ghost use Rattle.tech_rules.specs.Facts.{IsTech};
ghost use Rattle.role_tables.specs.Table.{HasTables, NamesCell};
ghost use Rattle.leaf_shapes.specs.Demands.{role_demands};
ghost use Rattle.leaf_shapes.specs.Outline.{IsCellOutline};
ghost use Rattle.leaf_shapes.specs.Pins.{AreLeafPins, drawing_of};
ghost use Rattle.leaf_tables.specs.Leaves.{AreLeaves, HasPorts, IsLeaf, IsLeafFault, cell_named_for};
ghost use Rattle.leaf_tables.specs.Steps.{IsLayoutFault, IsOfPin, IsOutlineFault, IsLeavesFault, IsPortFault};
ghost use Rattle.leaf_tables.specs.Steps.{LacksPins, source_in};

use crate::fault::KitFault;
use crate::kit::Leaf;
use crate::lookup::{cell_named_for, subckt_named};
use bumpalo::Bump;
use cell_hierarchy::{Flat, flatten};
use cell_roles::{LeafRole, Role};
use gds_library::Library;
use leaf_shapes::{CellSize, LeafPin, PinFault, outline_size, pin_shapes};
use netlist::Deck;
use or_geom::{Items, Memory, Name, Shape};
use shape_bins::index;
use std::alloc::Global;
use tech_rules::{Tech, Wire};

/// The name that a fault has for the role.
pub fn role_text(alloc: Global, role: LeafRole) -> Result<Name, Memory>
    ensures { IfOk result (λ name. name ≡ leaf_role_name role) }
{
    Name::from_bytes(alloc, role.name().as_bytes())
}

/// Whether the name at the place is the port there.
fn is_port_at(ports: &[Name], wanted: &[&str], place: usize) -> bool
    requires first { place < length ports.now }
    requires second { place < length wanted.now }
    ensures { IsTrue result ↔ (slice_get ports.now place ≡ slice_get (map (λ t. t.now) wanted.now) place) }
{
    ports[place].is(wanted[place].as_bytes())
}

/// Whether the names are these texts.
fn are_ports(ports: &[Name], wanted: &[&str]) -> bool
    ensures { IsTrue result ↔ (ports.now ≡ map (λ t. t.now) wanted.now) }
{
    if ports.len() != wanted.len() {
        return false;
    }
    for place in 0..ports.len() {
        if !is_port_at(ports, wanted, place) {
            return false;
        }
    }
    true
}

/// The name in lower case.
fn lower_name(alloc: Global, name: &Name) -> Result<Name, Memory>
    ensures { IfOk result (λ lowered. lowered ≡ lower name.now) }
{
    let bytes = name.as_bytes().to_ascii_lowercase(alloc)?;
    Ok(Name::from_vec(bytes))
}

/// Refuses a cell whose subcircuit isn't there or hasn't the role's ports.
fn check_ports(alloc: Global, deck: &Deck, cell: &Name, role: LeafRole) -> Result<(), KitFault>
    ensures ports { OnOk result (HasPorts deck.now.subckts role cell.now) }
    ensures fault { IfErr result (IsPortFault deck.now.subckts role cell.now) }
{
    let Ok(name) = lower_name(alloc, cell) else {
        return Err(KitFault::Memory);
    };
    let Some(subckt) = subckt_named(deck.subckts.as_slice(), &name) else {
        return Err(KitFault::UnknownSubckt { name });
    };
    if are_ports(subckt.ports.as_slice(), role.ports()) {
        return Ok(());
    }
    let Ok(role) = role_text(alloc, role) else {
        return Err(KitFault::Memory);
    };
    Err(KitFault::PortsDiffer { role })
}

/// The fault of a pin of the role.
fn fault_of_pin(alloc: Global, role: LeafRole, fault: PinFault) -> KitFault
    ensures { IsOfPin role fault result }
{
    let Ok(role) = role_text(alloc, role) else {
        return KitFault::Memory;
    };
    match fault {
        PinFault::PinMissing { pin } => KitFault::PinMissing { role, pin },
        PinFault::PinLayer { pin } => KitFault::PinLayer { role, pin },
        PinFault::EdgePin { pin } => KitFault::EdgePin { role, pin },
        PinFault::Memory => KitFault::Memory,
    }
}

/// The size of a cell with these flat shapes.
fn size_of(
    alloc: Global,
    wire: &Wire,
    outline: u16,
    role: LeafRole,
    shapes: &[Shape],
) -> Result<CellSize, KitFault>
    ensures size { IfOk result (IsCellOutline wire.now outline shapes.now) }
    ensures fault { IfErr result (IsOutlineFault wire.now outline role shapes.now) }
{
    let Some(size) = outline_size(wire, outline, shapes) else {
        let Ok(role) = role_text(alloc, role) else {
            return Err(KitFault::Memory);
        };
        return Err(KitFault::Outline { role });
    };
    Ok(size)
}

/// The shapes of the pins of a cell with this flat layout.
fn pins_of<'b>(
    alloc: Global,
    bump: &'b Bump,
    wire: &Wire,
    role: LeafRole,
    size: CellSize,
    flat: &Flat<'b>,
) -> Result<Items<LeafPin>, KitFault>
    requires rises { IsStrictlySortedBy shape_order flat.now.shapes.now }
    requires few { length flat.now.shapes.now ≤ 16777216 }
    ensures pins { IfOk result (AreLeafPins (drawing_of wire.now size flat.now.shapes.now flat.now.labels.now)
        (role_demands (pin_role role))) }
    ensures fault { IfErr result (LacksPins (drawing_of wire.now size flat.now.shapes.now flat.now.labels.now) role) }
{
    let Ok(bins) = index(alloc, bump, flat) else {
        return Err(KitFault::Memory);
    };
    match pin_shapes(alloc, role.pin_role(), wire, size, &bins, flat.labels) {
        Ok(pins) => Ok(pins),
        Err(fault) => Err(fault_of_pin(alloc, role, fault)),
    }
}

/// The flat layout of the cell.
fn flat_of<'b>(
    alloc: Global,
    bump: &'b Bump,
    tech: &Tech,
    lib: &Library,
    cell: &Name,
) -> Result<Flat<'b>, KitFault>
    requires tech { IsTech tech.now }
    requires writable { IsWritable lib.now }
    ensures flat { IfOk result (λ flat. AreFlatLists tech.now.layers lib.now.structs cell.now (lists_of flat)) }
    ensures few { IfOk result (λ flat. length flat.shapes.now ≤ 16777216) }
    ensures fault { IfErr result (IsLayoutFault tech.now.layers lib.now.structs cell.now) }
{
    match flatten(alloc, bump, lib, tech, cell) {
        Ok(flat) => Ok(flat),
        Err(fault) => Err(KitFault::from(fault)),
    }
}

/// The leaf of a cell that plays the role.
fn drawn_leaf(
    alloc: Global,
    tech: &Tech,
    wire: &Wire,
    lib: &Library,
    deck: &Deck,
    role: LeafRole,
    cell: &Name,
) -> Result<Leaf, KitFault>
    requires tech { IsTech tech.now }
    requires writable { IsWritable lib.now }
    requires plays { cell_named_for tech.now.roles role ≡ Some cell.now }
    ensures leaf { IfOk result (IsLeaf (source_in tech.now wire.now lib.now deck.now) role) }
    ensures fault { IfErr result (IsLeafFault (source_in tech.now wire.now lib.now deck.now) role) }
{
    let bump = Bump::new(alloc);
    let flat = match flat_of(alloc, &bump, tech, lib, cell) {
        Ok(flat) => flat,
        Err(fault) => return Err(fault),
    };
    let size = match size_of(alloc, wire, tech.outline, role, flat.shapes) {
        Ok(size) => size,
        Err(fault) => return Err(fault),
    };
    if let Err(fault) = check_ports(alloc, deck, cell, role) {
        return Err(fault);
    }
    match pins_of(alloc, &bump, wire, role, size, &flat) {
        Ok(pins) => Ok(Leaf {
            width: size.width,
            height: size.height,
            pins,
        }),
        Err(fault) => Err(fault),
    }
}

/// The leaf of a role that the technology names a cell for. What is refused is refused in this order: the cell's flat
/// layout, its outline, its subcircuit, the ports of that, and its pins. `Memory` may come in place of each.
pub fn read_leaf(
    alloc: Global,
    tech: &Tech,
    wire: &Wire,
    lib: &Library,
    deck: &Deck,
    role: LeafRole,
) -> Result<Leaf, KitFault>
    requires tech { IsTech tech.now }
    requires writable { IsWritable lib.now }
    requires cell { NamesCell tech.now role }
    ensures leaf { IfOk result (IsLeaf (source_in tech.now wire.now lib.now deck.now) role) }
    ensures fault { IfErr result (IsLeafFault (source_in tech.now wire.now lib.now deck.now) role) }
{
    let Some(cell) = cell_named_for(tech.roles.as_slice(), role) else {
        unreachable!();
    };
    drawn_leaf(alloc, tech, wire, lib, deck, role, cell)
}

/// The role at an index.
fn role_at(all: &[Role], index: usize) -> Role
    requires { index < length all.now }
    ensures { slice_get all.now index ≡ Some result }
{
    all[index]
}

/// The leaves of all roles, in order.
pub fn read_leaves(
    alloc: Global,
    tech: &Tech,
    wire: &Wire,
    lib: &Library,
    deck: &Deck,
) -> Result<Items<Leaf>, KitFault>
    requires tech { IsTech tech.now }
    requires writable { IsWritable lib.now }
    requires tables { HasTables tech.now }
    ensures leaves { IfOk result (AreLeaves (source_in tech.now wire.now lib.now deck.now)) }
    ensures fault { IfErr result (IsLeavesFault (source_in tech.now wire.now lib.now deck.now)) }
{
    let all = Role::all();
    let mut leaves = Items::new(alloc);
    for index in 0..all.len() {
        let role = role_at(&all, index);
        let leaf = match read_leaf(alloc, tech, wire, lib, deck, LeafRole::Common(role)) {
            Ok(leaf) => leaf,
            Err(fault) => return Err(fault),
        };
        if let Err(_) = leaves.push(leaf) {
            return Err(KitFault::Memory);
        }
    }
    Ok(leaves)
}
