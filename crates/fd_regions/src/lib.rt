//! Flash devices: the bytes of their regions, each in its place.
#![tactic(auto)]

mod compose;
mod contents;

use build_base::Image;
pub use build_base::Pieces;
pub use compose::device;
pub use contents::Contents;

/// The image of a flash device, from its base address on, made of its runs.
pub type Device = Image;
