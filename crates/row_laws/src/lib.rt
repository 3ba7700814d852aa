//! Laws of flat rows, level by level: what a subcircuit flattens to, by what its instances flatten to.
#![tactic(auto)]

ghost use Rattle.row_laws.specs.Laws.{CaseIsForgotten, InstancesFlatten, InstancesOfSubcktsFlatten, NamesAreNew};
ghost use Rattle.row_laws.specs.Laws.{RowsAreNumbered};

/// A law for proofs: an instance of a subcircuit flattens to what the subcircuit does, seen from further up.
pub fn instances_of_subckts_flatten()
    ensures { InstancesOfSubcktsFlatten }
{}

/// A law for proofs: instances flatten one after another.
pub fn instances_flatten()
    ensures { InstancesFlatten }
{}

/// A law for proofs: flat rows are the same where subcircuits are put in lower case, as they are when they are read.
pub fn case_is_forgotten()
    ensures { CaseIsForgotten }
{}

/// A law for proofs: the named rows of a deck can be numbered by first appearance.
pub fn rows_are_numbered()
    ensures { RowsAreNumbered }
{}

/// A law for proofs: names that are not found in a deck are new to it, as is asked of subcircuits that are written
/// after it.
pub fn names_are_new()
    ensures { NamesAreNew }
{}
