ghost use Rattle.macro_layout.specs.Layout.{MacrosAreFlat, FlatListsAreLayout};
ghost use Rattle.macro_layout.specs.Moved.{ColumnChannelsAreDrawn, MainChannelsAreDrawn};
ghost use Rattle.macro_layout.specs.RailLists.{RailsAreDrawn};
ghost use Rattle.macro_layout.specs.Sound.{MacrosAreSound};
ghost use Rattle.macro_layout.specs.Stated.{FlatListsAreStated};

/// A law for proofs: the flat shapes and labels of a macro are those of its layout.
pub fn macros_are_flat()
    ensures { MacrosAreFlat }
{}

/// A law for proofs: the flat lists of a macro that was built over a kit are its layout.
pub fn flat_lists_are_layout()
    ensures { FlatListsAreLayout }
{}

/// A law for proofs: the flat lists of a macro that is drawn as stated are the stated layout.
pub fn flat_lists_are_stated()
    ensures { FlatListsAreStated }
{}

/// A law for proofs: a macro over sound leaf cells is sound, and its chains have at most four references more than
/// theirs.
pub fn macros_are_sound()
    ensures { MacrosAreSound }
{}

/// A law for proofs: the column channel and the main channel have the wires of a routed channel that stands elsewhere,
/// moved.
pub fn channels_are_drawn()
    ensures column { ColumnChannelsAreDrawn }
    ensures main { MainChannelsAreDrawn }
{}

/// A law for proofs: rails and taps have the wires that are drawn of lists of them, moved.
pub fn rails_are_drawn()
    ensures { RailsAreDrawn }
{}
