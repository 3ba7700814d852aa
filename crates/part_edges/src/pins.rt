ghost use Rattle.std.specs.Prelude.{◌≡◌, ◌↔◌, ◌<◌, ◌++◌, ◌∷◌, [], map, length, slice_get, Some, IsTrue, IfOk, OnOk};
ghost use Rattle.std.specs.List.{AllByRecursion};
ghost use Rattle.or_geom.specs.Distance.{IsReachable};
ghost use Rattle.or_geom.specs.Place.{IsNearPoint};
ghost use Rattle.cell_roles.specs.Roles.{role_ports};
ghost use Rattle.leaf_shapes.specs.Demands.{plain_demand};
ghost use Rattle.leaf_tables.specs.Kits.{IsKit};
ghost use Rattle.part_edges.specs.PartPins.{placed_pin, port_place, net_of, side_pins, edge_pins, part_pins, edges_at};
ghost use Rattle.part_edges.specs.PartPins.{AreEdgesOf};

use crate::edge::{edge_at, sorted_edges};
use crate::side::{PartSide, is_at_side};
use cell_builder::PlacedInstance;
use cell_roles::Role;
use leaf_shapes::{LeafPin, PinRequirement, demands};
use leaf_tables::{Edge, Edges, Kit, leaf_of};
use netlist::Instance;
use or_geom::{Memory, Name, Place};
use std::alloc::Global;

/// Whether the port at the place has this name.
fn is_port_at(ports: &[&str], place: usize, pin: &str) -> bool
    requires { place < length ports.now }
    ensures { IsTrue result ↔ (slice_get (map (λ port. port.now) ports.now) place ≡ Some pin.now) }
{
    ports[place].as_bytes() == pin.as_bytes()
}

/// The index of the first port of this name, or the number of ports if none has it.
fn port_place(ports: &[&str], pin: &str) -> usize
    ensures { result ≡ port_place (map (λ port. port.now) ports.now) pin.now }
{
    for place in 0..ports.len() {
        if is_port_at(ports, place, pin) {
            return place;
        }
    }
    ports.len()
}

/// The net of the role's port of this name, where its ports are on these nets.
fn net_of<'a>(role: Role, nets: &'a [Name], pin: &str) -> &'a [u8]
    ensures { result.now ≡ net_of (role_ports role) nets.now pin.now }
{
    match nets.get(port_place(role.ports(), pin)) {
        Some(net) => net.as_bytes(),
        None => &[],
    }
}

/// Adds the edge of a pin of a leaf cell, where its shape reaches the side.
fn add_pin_edge(
    alloc: Global,
    net: &[u8],
    place: Place,
    pin: &LeafPin,
    side: PartSide,
    edges: &mut Vec<Edge>,
) -> Result<(), Memory>
    requires place { IsNearPoint place.at }
    requires pin { IsReachable pin.now.rect }
    ensures { OnOk result (edges.new.items
        ≡ edges.old.items ++ edges_at side (placed_pin net.now place pin.now.rect ∷ [])) }
{
    let rect = place.apply(pin.rect);
    if side.is_met(rect) {
        edges.push(edge_at(Name::from_bytes(alloc, net)?, rect.x1))?;
    }
    Ok(())
}

/// A role's leaf cell where it stands.
#[derive(Clone, Copy)]
struct PlacedLeaf {
    role: Role,
    place: Place,
}

/// Adds the edges of a leaf cell's pins at a side, where these are demanded of them. The cell has its ports on the
/// nets.
fn add_side_edges(
    alloc: Global,
    leaf: PlacedLeaf,
    nets: &[Name],
    demands: &[PinRequirement],
    pins: &[LeafPin],
    side: PartSide,
    edges: &mut Vec<Edge>,
) -> Result<(), Memory>
    requires place { IsNearPoint leaf.place.at }
    requires pins { AllByRecursion (λ pin. IsReachable pin.rect) pins.now }
    ensures { OnOk result (edges.new.items
        ≡ edges.old.items ++ edges_at side
        (side_pins leaf.role nets.now leaf.place (map plain_demand demands.now) pins.now)) }
{
    let mut rest = demands;
    let mut pins = pins;
    while let Some((demand, others)) = rest.split_first() {
        let Some((pin, other_pins)) = pins.split_first() else {
            return Ok(());
        };
        if is_at_side(demand.fit) {
            let net = net_of(leaf.role, nets, demand.pin);
            add_pin_edge(alloc, net, leaf.place, pin, side, edges)?;
        }
        rest = others;
        pins = other_pins;
    }
    Ok(())
}

/// Adds the edges of the role's leaf cell at a side: it stands at the place, with its ports on these nets.
fn add_leaf_edges(
    alloc: Global,
    kit: &Kit,
    role: Role,
    nets: &[Name],
    place: Place,
    side: PartSide,
    edges: &mut Vec<Edge>,
) -> Result<(), Memory>
    requires kit { IsKit kit.now }
    requires place { IsNearPoint place.at }
    ensures { OnOk result (edges.new.items
        ≡ edges.old.items ++ edges_at side (edge_pins kit.now.leaves role nets.now place)) }
{
    let pins = leaf_of(kit, role).pins.as_slice();
    let leaf = PlacedLeaf { role, place };
    add_side_edges(alloc, leaf, nets, demands(role), pins, side, edges)
}

/// Adds the edges of leaf cells at a side.
fn add_part_edges(
    alloc: Global,
    kit: &Kit,
    roles: &[Role],
    instances: &[Instance],
    placed: &[PlacedInstance],
    side: PartSide,
    edges: &mut Vec<Edge>,
) -> Result<(), Memory>
    requires kit { IsKit kit.now }
    requires near { AllByRecursion (λ cell. IsNearPoint cell.place.at) placed.now }
    ensures { OnOk result (edges.new.items
        ≡ edges.old.items ++ edges_at side (part_pins kit.now.leaves roles.now instances.now placed.now)) }
{
    let mut rest = roles;
    let mut instances = instances;
    let mut placed = placed;
    while let Some((role, others)) = rest.split_first() {
        let Some((instance, other_instances)) = instances.split_first() else {
            return Ok(());
        };
        let Some((cell, other_cells)) = placed.split_first() else {
            return Ok(());
        };
        let nets = instance.nodes.as_slice();
        add_leaf_edges(alloc, kit, *role, nets, cell.place, side, edges)?;
        rest = others;
        instances = other_instances;
        placed = other_cells;
    }
    Ok(())
}

/// The edges at a side of a part that is made of leaf cells, in the order of the cells: the roles that they play, their
/// instances in the part's subcircuit, and their places in the part's cell, each list in the same order. Lengths are
/// nanometres.
pub fn side_edges(
    alloc: Global,
    kit: &Kit,
    roles: &[Role],
    instances: &[Instance],
    placed: &[PlacedInstance],
    side: PartSide,
) -> Result<Vec<Edge>, Memory>
    requires kit { IsKit kit.now }
    requires near { AllByRecursion (λ cell. IsNearPoint cell.place.at) placed.now }
    ensures { IfOk result (λ edges. edges.items
        ≡ edges_at side (part_pins kit.now.leaves roles.now instances.now placed.now)) }
{
    let mut edges = Vec::new(alloc);
    add_part_edges(alloc, kit, roles, instances, placed, side, &mut edges)?;
    Ok(edges)
}

/// The edges of a part that is made of leaf cells and has these sides, in nanometres.
pub fn edges_of(
    alloc: Global,
    kit: &Kit,
    roles: &[Role],
    instances: &[Instance],
    placed: &[PlacedInstance],
    width: i64,
    height: i64,
) -> Result<Edges, Memory>
    requires kit { IsKit kit.now }
    requires near { AllByRecursion (λ cell. IsNearPoint cell.place.at) placed.now }
    ensures edges { IfOk result (AreEdgesOf (part_pins kit.now.leaves roles.now instances.now placed.now)) }
    ensures width { IfOk result (λ edges. edges.width ≡ width) }
    ensures height { IfOk result (λ edges. edges.height ≡ height) }
{
    let top = side_edges(
        alloc,
        kit,
        roles,
        instances,
        placed,
        PartSide::Upper { height },
    )?;
    let bottom = side_edges(alloc, kit, roles, instances, placed, PartSide::Lower)?;
    Ok(Edges {
        top: sorted_edges(top),
        bottom: sorted_edges(bottom),
        width,
        height,
    })
}
