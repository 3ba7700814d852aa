ghost use Rattle.std.specs.Prelude.{IfErr, OnOk};
ghost use Rattle.leaf_tables.specs.Kits.{IsKit};
ghost use Rattle.rom_leaves.specs.RomLeaves.{HasRomLeaves, IsRomLeafFault};

use crate::fixed::fixed_leaf;
use crate::shared::check_shared;
use leaf_tables::{Kit, KitFault, Role, leaf_of, wire_of};
use std::alloc::Global;

/// Whether the kit has the two leaf cells of a read-only memory. What is refused is refused in this order: of the cell
/// for 0 and then of the one for 1 its name and table, its flat layout, outline, subcircuit, ports and pins; then, of
/// both, heights, widths, and pins that don't begin where the bitcell's do. `Memory` may come in place of each.
pub fn rom_leaves(alloc: Global, kit: &Kit) -> Result<(), KitFault>
    requires { IsKit kit.now }
    ensures leaves { OnOk result (HasRomLeaves kit.now) }
    ensures fault { IfErr result (IsRomLeafFault kit.now) }
{
    let wire = wire_of(kit);
    let zero = match fixed_leaf(alloc, kit, wire, false) {
        Ok(leaf) => leaf,
        Err(fault) => return Err(fault),
    };
    let one = match fixed_leaf(alloc, kit, wire, true) {
        Ok(leaf) => leaf,
        Err(fault) => return Err(fault),
    };
    check_shared(alloc, leaf_of(kit, Role::Bitcell), &zero, &one)
}
