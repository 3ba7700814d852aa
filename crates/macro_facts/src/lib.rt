//! Laws of macros: whoever assembles one may flatten it, and under a name with which no name of the leaf files begins
//! no name is taken.
#![tactic(auto)]

ghost use Rattle.macro_facts.specs.Whole.{MacrosAreWhole, MacrosHaveRows};
ghost use Rattle.macro_facts.specs.Unused.{UnusedNamesAreFree};

/// All that a macro reaches is there, nothing that it reaches reaches itself, and its chains have at most 36
/// references.
pub fn macros_are_whole()
    ensures { MacrosAreWhole }
{}

/// Behind the subcircuits of its kit those of a macro have flat rows, out of memory aside.
pub fn macros_have_rows()
    ensures { MacrosHaveRows }
{}

/// Under a name with which no name of the leaf files begins no name is taken, whatever else a macro is refused for.
pub fn unused_names_are_free()
    ensures { UnusedNamesAreFree }
{}
