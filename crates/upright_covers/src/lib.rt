//! Laws of boxes that the upright metals, the second and the fourth, cover near a leaf instance's zone.
#![tactic(auto)]
