//! The keys of steps, what steps give and what they are answered as bytes, with one encoding each.
#![tactic(auto)]

pub mod key;
mod out;
pub mod talk;
mod whole;

pub use whole::{pack_outcome, unpack_key, unpack_outcome};
