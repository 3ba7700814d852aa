ghost use Rattle.rom_leaves.specs.Laws.{RomLeavesAreLeaves, RomLeavesStandAsBitcells};

/// Each of the two cells of a kit is a leaf cell of its role, read from the kit's files as the others are.
pub fn rom_leaves_are_leaves()
    ensures { RomLeavesAreLeaves }
{}

/// Each has its sides and the beginnings of its pins where the bitcell has them.
pub fn rom_leaves_stand_as_bitcells()
    ensures { RomLeavesStandAsBitcells }
{}
