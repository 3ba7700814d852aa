ghost use Rattle.std.specs.Prelude.{IfOk, IfErr};
ghost use Rattle.gds_library.specs.Writable.{IsWritable};
ghost use Rattle.tech_rules.specs.Facts.{IsTech};
ghost use Rattle.leaf_tables.specs.Kits.{source_of};
ghost use Rattle.rom_leaves.specs.RomLeaves.{IsFixedLeaf, IsFixedFault};

use leaf_tables::{Kit, KitFault, Leaf, LeafRole, read_leaf, read_table};
use std::alloc::Global;
use tech_rules::Wire;

/// The leaf of the cell with this fixed bit: its table is looked at first, and then the cell, as `kit_of` looks at
/// others.
pub fn fixed_leaf(alloc: Global, kit: &Kit, wire: &Wire, bit: bool) -> Result<Leaf, KitFault>
    requires tech { IsTech kit.now.tech }
    requires library { IsWritable kit.now.lib }
    ensures leaf { IfOk result (IsFixedLeaf (source_of kit.now wire.now) bit) }
    ensures fault { IfErr result (IsFixedFault (source_of kit.now wire.now) bit) }
{
    let role = LeafRole::Fixed(bit);
    if let Err(fault) = read_table(alloc, &kit.tech, role) {
        return Err(KitFault::from(fault));
    }
    read_leaf(alloc, &kit.tech, wire, &kit.lib, &kit.deck, role)
}
