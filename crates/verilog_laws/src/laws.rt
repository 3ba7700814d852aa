ghost use Rattle.verilog_laws.specs.Laws.{CommandsStep, MemoriesAgree, MemoriesAnswer, MemoriesAreLegal, MemoriesRun};
ghost use Rattle.verilog_laws.specs.Laws.{PowerUpKeeps, TextsAreMemories, TextsSpell};

/// A law for proofs: a memory's Verilog text spells one module, which is a memory.
pub fn texts_are_memories()
    ensures { TextsAreMemories }
{}

/// A law for readers: the module that a memory's Verilog text spells is `memory_module`.
pub fn texts_spell()
    ensures { TextsSpell }
{}

/// A law for readers: a memory's module is legal Verilog, so that a tool has to accept it.
pub fn memories_are_legal()
    ensures { MemoriesAreLegal }
{}

/// A law for readers: a memory's module has a run on each list of commands.
pub fn memories_run()
    ensures { MemoriesRun }
{}

/// A law for readers: every run of a memory's module answers as the array of words, and ends with the array's words.
pub fn memories_answer()
    ensures { MemoriesAnswer }
{}

/// A law for readers: begun with the same words, a memory's module answers as its netlist.
pub fn memories_agree()
    ensures { MemoriesAgree }
{}

/// A law for readers: from any state of a memory's module, also one of which nothing is known, each command reads or
/// writes the bits that are there.
pub fn commands_step()
    ensures { CommandsStep }
{}

/// A law for readers: a clock that comes from x to 0 before the first command changes nothing in a memory's module.
pub fn power_up_keeps()
    ensures { PowerUpKeeps }
{}
