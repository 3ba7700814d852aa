//! Laws of leaf cells' heights: in a kit whose pins are right each is more than two wires high.
#![tactic(auto)]

ghost use Rattle.high_cells.specs.High.{CellsAreHigh, KitsHaveHighCells};

/// In a kit whose pins are right each leaf cell is more than two wires high, since its supply rails are on two nets.
pub fn cells_are_high()
    ensures { CellsAreHigh }
{}

/// In a kit whose pins are right the leaf cells of a memory are more than two wires high, as the laws of nets on the
/// first metal ask.
pub fn kits_have_high_cells()
    ensures { KitsHaveHighCells }
{}
