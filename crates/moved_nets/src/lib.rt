//! Laws of the reference netlist: the nets of an instance, moved by slices, data bits or masks, are the moved nets of
//! its counterpart in a smaller memory.
#![tactic(auto)]

ghost use Rattle.moved_nets.specs.Moved.{SlicesMove, LogicMoves};

/// Moved by some slices, an instance of a memory's bank has the nets of another memory's, by one function.
pub fn slices_move()
    ensures { SlicesMove }
{}

/// Moved among data bits and masks, a cell of the logic row has the nets of another memory's, by one function.
pub fn logic_moves()
    ensures { LogicMoves }
{}
