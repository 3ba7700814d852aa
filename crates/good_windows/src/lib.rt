//! Laws of windows: the small memories of a memory are windows of its kit, and a good kit is as the laws of places and
//! wires ask.
#![tactic(auto)]

ghost use Rattle.good_windows.specs.Listed.{WindowsAreListed};
ghost use Rattle.good_windows.specs.Fit.{KitsFitZones};
ghost use Rattle.good_windows.specs.Passes.{LeavesDrawInside, ShapesPassLittle};
ghost use Rattle.good_windows.specs.Short.{GoodKitsAreShort};

/// Each small memory in which something stands as in the memory is the memory of a listed window.
pub fn windows_are_listed()
    ensures { WindowsAreListed }
{}

/// In the memories of a kit whose reach is short, each rule and the shapes beyond outlines reach no further than the
/// laws of places ask.
pub fn good_kits_are_short()
    ensures { GoodKitsAreShort }
{}

/// Leaf cells of a kit fit into their zones, where the slices are wide enough.
pub fn kits_fit_zones()
    ensures { KitsFitZones }
{}

/// Shapes of leaf cells pass their outlines by no more than the kit's overhang.
pub fn shapes_pass_little()
    ensures { ShapesPassLittle }
{}

/// On layers of wires shapes of leaf cells stay inside their outlines.
pub fn leaves_draw_inside()
    ensures { LeavesDrawInside }
{}
