//! A law of macros: for each kit, plan, contents and name there is a macro, or a fault of a part.
#![tactic(auto)]

ghost use Rattle.macro_answers.specs.Answers.{MacrosOrFaultsAreThere};

/// Whatever the kit, the plan, the contents that fit both, and the output name, there is a macro of the name, or a
/// fault of a part that isn't out of memory.
pub fn macros_or_faults_are_there()
    ensures { MacrosOrFaultsAreThere }
{}
