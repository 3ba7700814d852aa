//! Laws of pairs: two instances of a memory that touch stand in a small memory as they touch, and show their nets
//! there.
#![tactic(auto)]
