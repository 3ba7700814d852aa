ghost use Rattle.std.specs.Prelude.{◌≡◌, ◌↔◌, ◌<◌, IsTrue, IfErr, MatchOption, OnOk, Some, length, slice_get};
ghost use Rattle.std.specs.List.{AllByRecursion};
ghost use Rattle.std.specs.Option.{option_copied};
ghost use Rattle.leaf_tables.specs.Alignment.{AreAligned, Face, IsFirstOdd, IsMisaligned, IsOfFacing, SameHeight};
ghost use Rattle.leaf_tables.specs.Alignment.{SameWidth, end_in, end_of, end_of_pin, height_in, heights_equal, leaf_in};
ghost use Rattle.leaf_tables.specs.Alignment.{pins_face, plain_facing, width_in, widths_equal};

use crate::alignment::{Facing, PinEdge, facing_pins, height_pairs, width_pairs};
use crate::fault::KitFault;
use crate::kit::Leaf;
use crate::leaf::role_text;
use crate::lookup::{first_pin, role_number};
use cell_roles::{LeafRole, Role};
use leaf_shapes::LeafPin;
use or_geom::Name;
use std::alloc::Global;

/// The role's leaf.
fn leaf_in(leaves: &[Leaf], role: Role) -> Option<&Leaf>
    ensures { option_copied result ≡ leaf_in leaves.now role }
{
    leaves.get(role_number(role))
}

/// The height of the role's cell.
fn height_in(leaves: &[Leaf], role: Role) -> Option<i64>
    ensures { result ≡ height_in leaves.now role }
{
    match leaf_in(leaves, role) {
        Some(leaf) => Some(leaf.height),
        None => None,
    }
}

/// The width of the role's cell.
fn width_in(leaves: &[Leaf], role: Role) -> Option<i64>
    ensures { result ≡ width_in leaves.now role }
{
    match leaf_in(leaves, role) {
        Some(leaf) => Some(leaf.width),
        None => None,
    }
}

/// The left or the lower end of a pin.
fn end_of(pin: &LeafPin, edge: PinEdge) -> i64
    ensures { result ≡ end_of edge pin.now }
{
    match edge {
        PinEdge::Left => pin.rect.x1,
        PinEdge::Low => pin.rect.y1,
    }
}

/// The left or the lower end of the first shape of a leaf's pin, in nanometres; none where the leaf has no such pin.
pub fn end_of_pin(leaf: &Leaf, name: &str, edge: PinEdge) -> Option<i64>
    ensures { result ≡ end_of_pin edge name.now leaf.now }
{
    match first_pin(leaf.pins.as_slice(), name) {
        Some(pin) => Some(end_of(pin, edge)),
        None => None,
    }
}

/// The left or the lower end of the first shape of a role's pin.
fn end_in(leaves: &[Leaf], role: Role, name: &str, edge: PinEdge) -> Option<i64>
    ensures { result ≡ end_in leaves.now role name.now edge }
{
    let Some(leaf) = leaf_in(leaves, role) else {
        return None;
    };
    end_of_pin(leaf, name, edge)
}

/// Whether both cells are as high.
fn same_height(leaves: &[Leaf], role: Role, other: Role) -> bool
    ensures { IsTrue result ↔ SameHeight leaves.now (role, other) }
{
    height_in(leaves, role) == height_in(leaves, other)
}

/// Whether both cells are as wide.
fn same_width(leaves: &[Leaf], role: Role, other: Role) -> bool
    ensures { IsTrue result ↔ SameWidth leaves.now (role, other) }
{
    width_in(leaves, role) == width_in(leaves, other)
}

/// Whether the pins face each other.
fn face(leaves: &[Leaf], facing: Facing) -> bool
    ensures { IsTrue result ↔ Face leaves.now (plain_facing facing) }
{
    let Facing(role, pin, other, other_pin, edge) = facing;
    end_in(leaves, role, pin, edge) == end_in(leaves, other, other_pin, edge)
}

/// The pair of roles at an index.
fn pair_at(all: &[(Role, Role)], index: usize) -> (Role, Role)
    requires { index < length all.now }
    ensures { slice_get all.now index ≡ Some result }
{
    all[index]
}

/// The first role whose cell isn't as high as the other of its pair.
fn first_height(leaves: &[Leaf]) -> Option<(Role, Role)>
    ensures { MatchOption result (AllByRecursion (SameHeight leaves.now) heights_equal)
        (IsFirstOdd (SameHeight leaves.now) heights_equal) }
{
    let all = height_pairs();
    for index in 0..all.len() {
        let pair = pair_at(all, index);
        if !same_height(leaves, pair.0, pair.1) {
            return Some(pair);
        }
    }
    None
}

/// The first role whose cell isn't as wide as the other of its pair.
fn first_width(leaves: &[Leaf]) -> Option<(Role, Role)>
    ensures { MatchOption result (AllByRecursion (SameWidth leaves.now) widths_equal)
        (IsFirstOdd (SameWidth leaves.now) widths_equal) }
{
    let all = width_pairs();
    for index in 0..all.len() {
        let pair = pair_at(all, index);
        if !same_width(leaves, pair.0, pair.1) {
            return Some(pair);
        }
    }
    None
}

/// The pair at an index.
fn facing_at(all: &[Facing], index: usize) -> Facing
    requires { index < length all.now }
    ensures { slice_get all.now index ≡ Some result }
{
    all[index]
}

/// The first pin that doesn't face the other of its pair.
fn first_facing(leaves: &[Leaf]) -> Option<Facing>
    ensures { MatchOption result (AllByRecursion (Face leaves.now) pins_face)
        (λ facing. IsFirstOdd (Face leaves.now) pins_face (plain_facing facing)) }
{
    let all = facing_pins();
    for index in 0..all.len() {
        let facing = facing_at(all, index);
        if !face(leaves, facing) {
            return Some(facing);
        }
    }
    None
}

/// The fault of a pin that doesn't face the other of its pair.
fn facing_fault(alloc: Global, facing: Facing) -> KitFault
    ensures { IsOfFacing (plain_facing facing) result }
{
    let Facing(role, pin, _, _, _) = facing;
    let Ok(role) = role_text(alloc, LeafRole::Common(role)) else {
        return KitFault::Memory;
    };
    let Ok(pin) = Name::from_bytes(alloc, pin.as_bytes()) else {
        return KitFault::Memory;
    };
    KitFault::EdgePin { role, pin }
}

/// Refuses leaves whose heights, widths or pins don't fit each other, in this order.
pub fn check_aligned(alloc: Global, leaves: &[Leaf]) -> Result<(), KitFault>
    ensures aligned { OnOk result (AreAligned leaves.now) }
    ensures fault { IfErr result (IsMisaligned leaves.now) }
{
    if let Some((role, _)) = first_height(leaves) {
        let Ok(role) = role_text(alloc, LeafRole::Common(role)) else {
            return Err(KitFault::Memory);
        };
        return Err(KitFault::HeightDiffers { role });
    }
    if let Some((role, _)) = first_width(leaves) {
        let Ok(role) = role_text(alloc, LeafRole::Common(role)) else {
            return Err(KitFault::Memory);
        };
        return Err(KitFault::WidthDiffers { role });
    }
    if let Some(facing) = first_facing(leaves) {
        return Err(facing_fault(alloc, facing));
    }
    Ok(())
}
