ghost use Rattle.rom_verilog_laws.specs.Laws.{RomTextsAreMemories, RomTextsSpell, RomsStart};

/// A law for proofs: a read-only memory's Verilog text spells one module, which is a read-only memory of its words.
pub fn rom_texts_are_memories()
    ensures { RomTextsAreMemories }
{}

/// A law for readers: the module that a read-only memory's Verilog text spells is `rom_module`.
pub fn rom_texts_spell()
    ensures { RomTextsSpell }
{}

/// A law for readers: a read-only memory's module starts with the memory's words.
pub fn roms_start()
    ensures { RomsStart }
{}
