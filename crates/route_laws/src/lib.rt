//! Laws of routing: where no two pins and no two taps of a small memory are too close, none are of a larger one of its
//! kind.
#![tactic(auto)]
