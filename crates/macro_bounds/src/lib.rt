//! Laws that bound what a memory's layout is made of: coordinates, names and counts, so that its library can be
//! written.
#![tactic(auto)]

mod laws;

pub use laws::{
    channel_nets_are_few, floorplans_are_near, kit_leaves_are_complete, labels_are_writable,
    logic_cells_are_few, macro_cells_are_writable, macro_libraries_are_writable,
    macro_names_differ, near_shapes_are_listed, near_wires_are_writable, output_names_are_short,
    rail_shapes_are_near, routed_shapes_are_near, supply_wires_are_near, tracks_are_few,
};
