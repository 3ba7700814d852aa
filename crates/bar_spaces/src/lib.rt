//! Laws of the space rules of the first metal, on which bars and joiners of the supplies stand, and of the cuts above
//! it.
#![tactic(auto)]

ghost use Rattle.bar_spaces.specs.Kept.{FirstCutSpaceIsKept, FirstSpaceIsKept};

/// The space rule of the first metal is kept where the small memories break none.
pub fn first_space_is_kept()
    ensures { FirstSpaceIsKept }
{}

/// So is the space rule of the cuts between the first and the second metal.
pub fn first_cut_space_is_kept()
    ensures { FirstCutSpaceIsKept }
{}
