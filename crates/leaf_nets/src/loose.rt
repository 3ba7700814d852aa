ghost use Rattle.std.specs.Prelude.{◌≡◌, ◌↔◌, ◌<◌, Contains, IsTrue, IfOk, length, slice_get, Some};
ghost use Rattle.or_geom.specs.Gathering.{SomeHas};
ghost use Rattle.leaf_nets.specs.Loose.{IsJoint};
ghost use Rattle.leaf_nets.specs.Numbers.{AreFreeShapes};

use crate::numbers::{is_listed, number_at};
use or_geom::{Items, Memory, Shape};
use std::alloc::Global;
use tech_rules::Connect;

/// Whether the connection is one of a cut on the layer, or connects the layer.
fn is_joint(connect: &Connect, layer: u16) -> bool
    ensures { IsTrue result ↔ IsJoint layer connect.now }
{
    connect.cut == layer || connect.to.as_slice().contains(&layer)
}

/// Whether shapes on the layer touch others: it is a conductor or a cut.
fn joins(connects: &[Connect], layer: u16) -> bool
    ensures { IsTrue result ↔ SomeHas (IsJoint layer) connects.now }
{
    for connect in connects {
        if is_joint(connect, layer) {
            return true;
        }
    }
    false
}

/// The shape at an index.
fn shape_at(shapes: &[Shape], index: usize) -> Shape
    requires { index < length shapes.now }
    ensures { slice_get shapes.now index ≡ Some result }
{
    shapes[index]
}

/// Whether a shape on the layer with a net of this number is on a conductor or a cut, and its net isn't one of these.
fn is_free(connects: &[Connect], layer: u16, number: u32, numbers: &[u32]) -> bool
    ensures { IsTrue result ↔ (SomeHas (IsJoint layer) connects.now × (Contains numbers.now number → ⊥)) }
{
    if is_listed(numbers, number) {
        return false;
    }
    joins(connects, layer)
}

/// The shapes on conductors and cuts whose net isn't one of these. `nets` has the number of each shape's net.
pub fn free_shapes(
    alloc: Global,
    connects: &[Connect],
    shapes: &[Shape],
    nets: &[u32],
    numbers: &[u32],
) -> Result<Items<Shape>, Memory>
    requires { length nets.now ≡ length shapes.now }
    ensures { IfOk result (AreFreeShapes connects.now shapes.now nets.now numbers.now) }
{
    let mut free = Items::new(alloc);
    for index in 0..shapes.len() {
        let shape = shape_at(shapes, index);
        if is_free(connects, shape.layer, number_at(nets, index), numbers) {
            free.push(shape)?;
        }
    }
    Ok(free)
}
