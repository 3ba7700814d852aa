//! The layout of a memory: its cells, what they are when they are flattened, and where everything stands.
#![tactic(auto)]

mod laws;

pub use laws::{
    channels_are_drawn, flat_lists_are_layout, flat_lists_are_stated, macros_are_flat,
    macros_are_sound, rails_are_drawn,
};
