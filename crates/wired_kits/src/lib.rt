//! Laws of a kit's macros: each is stated by its leaf cells, and its nets' wires are drawn.
#![tactic(auto)]
