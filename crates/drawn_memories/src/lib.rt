//! A law of macros: one that was assembled is a drawn memory.
#![tactic(auto)]

ghost use Rattle.drawn_memories.specs.Drawn.{MacrosAreDrawn};

/// The flat lists of a macro of a kit and a plan that is written are the stated layout of a drawn memory.
pub fn macros_are_drawn()
    ensures { MacrosAreDrawn }
{}
