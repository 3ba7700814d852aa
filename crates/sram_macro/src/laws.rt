ghost use Rattle.sram_macro.specs.Stated.{MacrosAreStated};

use macro_bounds::{kit_leaves_are_complete, macro_libraries_are_writable};
use macro_layout::{channels_are_drawn, flat_lists_are_stated};

/// A law for proofs: the flat lists of a macro are the stated layout, and its view is that of the same floorplan.
pub fn macros_are_stated()
    ensures { MacrosAreStated }
{
    // These calls do nothing when the program runs: their contracts are the laws of channels and cells that this one
    // rests on.
    channels_are_drawn();
    flat_lists_are_stated();
    macro_libraries_are_writable();
    kit_leaves_are_complete();
}
