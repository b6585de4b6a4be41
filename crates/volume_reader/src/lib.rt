//! Reading of images: the firmware volumes in them, with their files and sections (UEFI PI
//! specification, volume 3).
#![tactic(auto)]

mod blocks;
mod erased;
mod file;
mod find;
mod head;
mod laws;
mod lines;
mod listed;
mod listing;
mod nested;
mod sections;
mod slices;
mod volume;

pub use find::find_volume;
pub use head::is_head;
pub use laws::written_is_read;
pub use lines::put_hex;
pub use listed::{Listed, ListedSection, ReadRefusal, VolumeList};
pub use listing::list_text;
pub use sections::sections_of;
pub use volume::read_volume;
