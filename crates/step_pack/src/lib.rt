//! The keys of a build's steps, what the steps give, and the order of the keys by their packed
//! form.
#![tactic(auto)]

pub mod key;
pub mod laws;
mod order;
pub mod out;
mod pack;
mod step_key;

pub use key::Key;
pub use out::{Out, Output};
pub use pack::pack_key;
