//! Laws of supplies: each supply port of a leaf instance is joined with its supply's trunk.
#![tactic(auto)]
