//! That values fit their places in the image of vital product data, and are read there.
#![tactic(auto)]

mod laws;

pub use laws::{values_are_read, values_are_sized};
