//! Laws of spacing: of numbers that repeat or stand side by side, which ones are nearer to each other than a pitch.
#![tactic(auto)]
