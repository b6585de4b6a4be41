//! What is read of volumes, and of volumes whose modules are moved.
#![tactic(auto)]

mod laws;

pub use laws::{
    content_is_moved, file_is_moved, files_are_read, image_base_is_moved, moved_is_read,
    moved_is_read_as_it_was, sections_are_read, volume_is_moved,
};
