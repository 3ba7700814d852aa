ghost use Rattle.rom_laws.specs.Example.{RomExampleAnswers};
ghost use Rattle.rom_laws.specs.Laws.{RomsHoldWords};

/// The reference netlist of a read-only memory has a run from every state for each list of commands, every run from a
/// start answers each read with the word at its address, and at each command its nets say what is selected.
pub fn roms_hold_words()
    ensures { RomsHoldWords }
{}

/// The answers of a memory of 16 words: reads of 5 and 11 answer 1 and 3.
pub fn rom_example_answers()
    ensures { RomExampleAnswers }
{}
