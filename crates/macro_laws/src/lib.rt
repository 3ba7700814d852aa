//! Laws of macros: a kit, a plan and what is held have one macro under a name or one fault of a part, and are built in
//! one way or refused in one way.
#![tactic(auto)]

ghost use Rattle.macro_laws.specs.OneBuild.{BuildFaultsAreUnique, BuildFaultsExcludeBuilds, BuildsAreUnique};
ghost use Rattle.macro_laws.specs.OneMacro.{MacroFaultsAreUnique, MacroFaultsExcludeMacros, MacrosAreUnique};

/// A kit, a plan and what is held have at most one macro of a name.
pub fn macros_are_unique()
    ensures { MacrosAreUnique }
{}

/// They have at most one fault of a part, out of memory aside.
pub fn macro_faults_are_unique()
    ensures { MacroFaultsAreUnique }
{}

/// Where they have a macro there is no such fault, out of memory aside.
pub fn macro_faults_exclude_macros()
    ensures { MacroFaultsExcludeMacros }
{}

/// Two builds of them under one name have the same views.
pub fn builds_are_unique()
    ensures { BuildsAreUnique }
{}

/// There is at most one reason why nothing is built, out of memory aside.
pub fn build_faults_are_unique()
    ensures { BuildFaultsAreUnique }
{}

/// Where something is built there is none, out of memory aside.
pub fn build_faults_exclude_builds()
    ensures { BuildFaultsExcludeBuilds }
{}
