//! Firmware volumes (UEFI PI specification, volume 3).
#![tactic(auto)]

mod files;
mod header;
mod image;
mod layout;
mod length;
mod pad;
mod place;
mod places;

use build_base::Image;
pub use build_base::Pieces;
pub use image::{are_aligned, compose, has_shape};
pub use place::{Placed, place_of};
pub use places::file_places;

/// The image of a firmware volume, made of its runs.
pub type Volume = Image;
