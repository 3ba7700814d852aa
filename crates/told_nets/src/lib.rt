//! Laws of nets: whether two shapes are on one net can be told, and what free shapes of an instance are on one net
//! with.
#![tactic(auto)]
