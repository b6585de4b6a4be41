//! What each step of a build gives in a world.
#![tactic(auto)]

mod laws;

pub use laws::{
    builds_give_their_files, devices_are_made, dynamic_values_are_resolved,
    expressions_are_compiled, files_are_made, flash_descriptions_are_read, libraries_are_chosen,
    modules_are_read, nested_volumes_are_images, outputs_have_bytes, packages_are_read,
    platforms_are_read, reports_are_told, texts_are_made, values_are_resolved,
    vital_data_is_placed, volumes_are_made, volumes_are_moved,
};
