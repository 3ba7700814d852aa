//! A law of macros: where no loose shape of a leaf cell touches another outside of its instance, no free shape of a
//! leaf instance touches one outside of it.
#![tactic(auto)]

ghost use Rattle.apart_macros.specs.Apart.{MacrosAreApart};

/// In each macro of a kit whose pins are right, on its own tracks and floorplan, where no loose shape touches another
/// outside of its instance, no free shape of a leaf instance touches a shape outside of it.
pub fn macros_are_apart()
    ensures { MacrosAreApart }
{}
