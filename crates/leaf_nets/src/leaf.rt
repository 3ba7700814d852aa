ghost use Rattle.std.specs.Prelude.{◌≡◌, IfOk, Some};
ghost use Rattle.leaf_tables.specs.Kits.{IsKit};
ghost use Rattle.cell_roles.specs.declared.leaf_role.LeafRole.TheVariants.{Common};
ghost use Rattle.leaf_tables.specs.Leaves.{cell_named_for};
ghost use Rattle.leaf_nets.specs.Leaves.{IsLeafNets};

use crate::leaves::LooseLeaf;
use crate::loose::free_shapes;
use crate::pins::{PinNumbers, pin_numbers};
use bumpalo::Bump;
use kit_rules::leaf_layout;
use leaf_tables::{Kit, Role};
use net_extractor::shape_nets;
use or_geom::{Memory, Name};
use shape_bins::index;
use std::alloc::Global;

/// What is found in a leaf cell by itself.
#[derive(Drop)]
pub enum LeafNets {
    /// The index of the first port whose labels don't name it rightly.
    Wrong(usize),
    /// All are named rightly; the cell with its loose shapes.
    Loose(LooseLeaf),
}

/// What is found in the cell of a role by itself.
pub fn leaf_nets(alloc: Global, kit: &Kit, role: Role, cell: &Name) -> Result<LeafNets, Memory>
    requires kit { IsKit kit.now }
    requires plays { cell_named_for kit.now.tech.roles (Common role) ≡ Some cell.now }
    ensures { IfOk result (IsLeafNets kit.now role) }
{
    let bump = Bump::new(alloc);
    let flat = leaf_layout(alloc, &bump, kit, role, cell)?;
    let bins = index(alloc, &bump, &flat)?;
    let connects = kit.tech.connects.as_slice();
    let nets = shape_nets(alloc, connects, &bins)?;
    match pin_numbers(
        alloc,
        connects,
        nets.as_slice(),
        &bins,
        flat.labels,
        role.ports(),
    )? {
        PinNumbers::Wrong(pin) => Ok(LeafNets::Wrong(pin)),
        PinNumbers::Right(numbers) => {
            let shapes = free_shapes(alloc, connects, flat.shapes, nets.as_slice(), &numbers)?;
            let cell = Name::from_bytes(alloc, cell.as_bytes())?;
            Ok(LeafNets::Loose(LooseLeaf { cell, shapes }))
        }
    }
}
