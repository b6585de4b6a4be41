//! The steps of libraries, of dynamic PCDs and of a module's values.
#![tactic(auto)]

mod asks;
mod choices;
mod held_infs;
pub mod modules;
mod near;
mod parts;
mod pcds;
mod skus;

pub use parts::{Described, Linked};
