ghost use Rattle.std.specs.Prelude.{◌≡◌, ◌<◌, IfOk, length, slice_get, Some};
ghost use Rattle.leaf_tables.specs.Kits.{IsKit};
ghost use Rattle.leaf_nets.specs.Leaves.{AreKitNets, IsLeafNets};

use crate::leaf::{LeafNets, leaf_nets};
use kit_rules::cell_of;
use leaf_tables::{Kit, Role};
use or_geom::{Items, Memory, Name, Shape};
use std::alloc::Global;

/// A leaf cell with its loose shapes: those on conductors and cuts that are, in the cell by itself, on no net of a pin.
#[derive(Debug, Drop)]
pub struct LooseLeaf {
    pub cell: Name,
    pub shapes: Items<Shape>,
}

/// What is found in the leaf cells of a kit, each by itself.
#[derive(Drop)]
pub enum KitNets {
    /// The first role, in order, and the index of its first port, whose labels don't name it rightly.
    Wrong { role: Role, pin: usize },
    /// For each role, in order, its cell with its loose shapes.
    Loose(Vec<LooseLeaf>),
}

/// What is found in the cell of a role.
fn nets_of(alloc: Global, kit: &Kit, role: Role) -> Result<LeafNets, Memory>
    requires { IsKit kit.now }
    ensures { IfOk result (IsLeafNets kit.now role) }
{
    leaf_nets(alloc, kit, role, cell_of(kit, role))
}

/// The role at an index.
fn role_at(all: &[Role], index: usize) -> Role
    requires { index < length all.now }
    ensures { slice_get all.now index ≡ Some result }
{
    all[index]
}

/// Whether the labels of all pins name them rightly, in each leaf cell by itself: each label of a pin binds a shape,
/// and two labels of pins are on one net exactly where they name one pin. Where they do, the loose shapes of the leaf
/// cells.
pub fn kit_nets(alloc: Global, kit: &Kit) -> Result<KitNets, Memory>
    requires { IsKit kit.now }
    ensures { IfOk result (AreKitNets kit.now) }
{
    let all = Role::all();
    let mut leaves = Vec::new(alloc);
    for index in 0..all.len() {
        let role = role_at(&all, index);
        match nets_of(alloc, kit, role)? {
            LeafNets::Wrong(pin) => return Ok(KitNets::Wrong { role, pin }),
            LeafNets::Loose(leaf) => leaves.push(leaf)?,
        }
    }
    Ok(KitNets::Loose(leaves))
}
