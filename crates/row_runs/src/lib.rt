//! Laws of runs: what stands behind a cell of the logic row, near to it, stands so in a small memory, and nothing else
//! does.
#![tactic(auto)]
