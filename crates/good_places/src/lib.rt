//! Laws of the places of leaf instances: what stands near one in a memory stands near one in another, so that what a
//! rule sees of it on layers on which only leaf cells draw is seen there.
#![tactic(auto)]

ghost use Rattle.good_places.specs.Columns.{ColumnsAreAlike};
ghost use Rattle.good_places.specs.Pairs.{CellsAreAlikeZones, ColumnsAreAlikeZones, FrontsAreAlikeZones};
ghost use Rattle.good_places.specs.Pairs.{SlicesAreAlikeZones};
ghost use Rattle.good_places.specs.Plain.{PlainRulesAreKept};
ghost use Rattle.good_places.specs.Row.{CellsAreNearAlike};
ghost use Rattle.good_places.specs.Seen.{LeafEnclosuresAreSeen, LeafSpacesAreSeen, LeafWidthsAreSeen};
ghost use Rattle.good_places.specs.Stated.{StatedLeavesAlone, StatedLeavesAndWires};
ghost use Rattle.good_places.specs.Windows.{LeavesHaveWindows};
ghost use Rattle.good_places.specs.Zones.{ColumnsAreNearAlike, FrontsAreNearAlike, SlicesAreNearAlike};

/// What stands beside a column of a bank stands beside a column of another bank with the same rows, as far from it.
pub fn columns_are_alike()
    ensures { ColumnsAreAlike }
{}

/// What stands near a column of a bank stands near a column of another bank with the same rows, as far from it.
pub fn columns_are_near_alike()
    ensures { ColumnsAreNearAlike }
{}

/// What stands near the gates and drivers of a bank's rows stands near those of another bank with the same rows.
pub fn fronts_are_near_alike()
    ensures { FrontsAreNearAlike }
{}

/// What stands near a slice of a bank stands near a slice of another bank with as many words in a row.
pub fn slices_are_near_alike()
    ensures { SlicesAreNearAlike }
{}

/// What stands near a cell of a logic row stands near a cell of another, where the cells beside it have the same roles.
pub fn cells_are_near_alike()
    ensures { CellsAreNearAlike }
{}

/// A column's zone in a bank and that of a column of another bank with the same rows are alike: around them leaf
/// instances stand alike.
pub fn columns_are_alike_zones()
    ensures { ColumnsAreAlikeZones }
{}

/// So are the zones of the gates and drivers of two such banks' rows.
pub fn fronts_are_alike_zones()
    ensures { FrontsAreAlikeZones }
{}

/// So are the zones of slices of two banks with as many words in a row.
pub fn slices_are_alike_zones()
    ensures { SlicesAreAlikeZones }
{}

/// So are the zones of cells of two logic rows, where the cells beside them have the same roles.
pub fn cells_are_alike_zones()
    ensures { CellsAreAlikeZones }
{}

/// On a layer on which only leaf cells draw, what a width rule sees of a shape is seen in a memory that stands alike
/// around it.
pub fn leaf_widths_are_seen()
    ensures { LeafWidthsAreSeen }
{}

/// On layers on which only leaf cells draw, what a space rule sees of two near shapes is seen there too.
pub fn leaf_spaces_are_seen()
    ensures { LeafSpacesAreSeen }
{}

/// On layers on which only leaf cells draw, what an enclose rule sees of a shape is seen there too.
pub fn leaf_enclosures_are_seen()
    ensures { LeafEnclosuresAreSeen }
{}

/// Each leaf instance stands in a small memory, of one to four bits, with all leaf instances that a rule reaches from
/// there.
pub fn leaves_have_windows()
    ensures { LeavesHaveWindows }
{}

/// A rule that names no layer of wires is kept by a memory where the small memories break none.
pub fn plain_rules_are_kept()
    ensures { PlainRulesAreKept }
{}

/// On layers without wires the stated layout has the shapes of leaf instances alone.
pub fn stated_leaves_alone()
    ensures { StatedLeavesAlone }
{}

/// On layers of wires the stated layout has the shapes of leaf instances and the wires.
pub fn stated_leaves_and_wires()
    ensures { StatedLeavesAndWires }
{}
