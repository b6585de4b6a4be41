//! The text of a cache: each answer once, and the entries with numbers in their place.
#![tactic(auto)]

mod agreeing;
mod checking;
mod decoding;
mod known;
pub mod laws;
mod numbered;
mod places;
mod pool;
mod reading;
mod seen;
mod text;
mod writing;

pub use reading::{Kept, unpack, unpack_text};
pub use text::NEWEST;
pub use writing::pack;
