ghost use Rattle.std.specs.Prelude.{◌≡◌, ◌<◌, ◌↔◌, ℕ, Contains, IsTrue, Some, length, slice_get};
ghost use Rattle.kit_rules.specs.First.{FindsWithout};
ghost use Rattle.kit_rules.specs.Joints.{IsBeside, IsBesideAt, IsWireJoint};

use tech_rules::{Connect, Wire};

/// The layer at an index.
fn layer_at(layers: &[u16], index: usize) -> u16
    requires { index < length layers.now }
    ensures { slice_get layers.now index ≡ Some result }
{
    layers[index]
}

fn is_metal(wire: &Wire, layer: u16) -> bool
    ensures { IsTrue result ↔ Contains wire.now.metals layer }
{
    wire.metals.contains(&layer)
}

fn is_cut(wire: &Wire, layer: u16) -> bool
    ensures { IsTrue result ↔ Contains wire.now.cuts layer }
{
    wire.cuts.contains(&layer)
}

/// Whether the layer is a metal beside the wires' cut of this index.
fn is_beside(wire: &Wire, index: usize, layer: u16) -> bool
    requires { index < 3 }
    ensures { IsTrue result ↔ IsBeside wire.now index layer }
{
    layer == wire.metals[index] || layer == wire.metals[index + 1]
}

/// Whether all layers are metals beside the wires' cut of this index.
fn are_beside(wire: &Wire, index: usize, layers: &[u16]) -> bool
    requires { index < 3 }
    ensures { IsTrue result ↔ ((layer : ℕ) → Contains layers.now layer → IsBeside wire.now index layer) }
{
    for place in 0..layers.len() {
        if !is_beside(wire, index, layer_at(layers, place)) {
            return false;
        }
    }
    true
}

/// Whether none of the layers is one of the wires' cuts.
fn are_no_cuts(wire: &Wire, layers: &[u16]) -> bool
    ensures { IsTrue result ↔ ((layer : ℕ) → Contains layers.now layer → Contains wire.now.cuts layer → ⊥) }
{
    for place in 0..layers.len() {
        if is_cut(wire, layer_at(layers, place)) {
            return false;
        }
    }
    true
}

/// Whether the connection, where it is one of the wires' cut of this index, connects only metals beside this cut.
fn is_beside_at(wire: &Wire, connect: &Connect, index: usize) -> bool
    requires { index < 3 }
    ensures { IsTrue result ↔ IsBesideAt wire.now connect.now index }
{
    if layer_at(&wire.cuts, index) != connect.cut {
        return true;
    }
    are_beside(wire, index, connect.to.as_slice())
}

/// Whether the connection, where it is one of a cut of the wires, connects only metals beside this cut.
fn joins_beside(wire: &Wire, connect: &Connect) -> bool
    ensures { IsTrue result ↔ ((index : ℕ) → index < 3 → IsBesideAt wire.now connect.now index) }
{
    for index in 0..3 {
        if !is_beside_at(wire, connect, index) {
            return false;
        }
    }
    true
}

/// Whether the connection says of wires what it may.
fn is_wire_joint(wire: &Wire, connect: &Connect) -> bool
    ensures { IsTrue result ↔ IsWireJoint wire.now connect.now }
{
    if is_metal(wire, connect.cut) {
        return false;
    }
    if !are_no_cuts(wire, connect.to.as_slice()) {
        return false;
    }
    joins_beside(wire, connect)
}

/// The number of the first connection that says of wires what it may not.
pub fn first_wrong_joint(wire: &Wire, connects: &[Connect]) -> Option<usize>
    ensures { FindsWithout (IsWireJoint wire.now) connects.now result }
{
    for index in 0..connects.len() {
        if !is_wire_joint(wire, &connects[index]) {
            return Some(index);
        }
    }
    None
}
