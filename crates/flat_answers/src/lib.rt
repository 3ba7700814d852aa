//! Laws of flat layouts: a structure of a library has its flat shapes and labels, or a reason why it has none.
#![tactic(auto)]

ghost use Rattle.flat_answers.specs.FlatAnswers.{FlatListsOrFault, FlatShapesOrFault};

/// A structure has flat shapes or a fault, out of memory aside.
pub fn flat_shapes_or_fault()
    ensures { FlatShapesOrFault }
{}

/// A structure has flat shapes and labels or a fault, out of memory aside.
pub fn flat_lists_or_fault()
    ensures { FlatListsOrFault }
{}
