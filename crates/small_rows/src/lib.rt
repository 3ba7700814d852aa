//! Laws of the logic row: cells that stand near each other stand so in a small memory, and their nets move alike.
#![tactic(auto)]
