//! Laws of kits: a technology and the files of its leaf cells are a kit, or have a fault.
#![tactic(auto)]

ghost use Rattle.kit_answers.specs.KitAnswers.{KitsAnswer};
ghost use Rattle.kit_answers.specs.RomLeafAnswers.{RomLeavesAnswer};

/// A technology, the bytes of a library and a text are a kit, or have a fault.
pub fn kits_answer()
    ensures { KitsAnswer }
{}

/// A kit has the leaf cells of a read-only memory, or a fault of them.
pub fn rom_leaves_answer()
    ensures { RomLeavesAnswer }
{}
