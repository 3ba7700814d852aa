//! Laws of the bars and joiners of the supplies: at which heights they stand, and that around zones of one kind those
//! of two memories stand alike.
#![tactic(auto)]
