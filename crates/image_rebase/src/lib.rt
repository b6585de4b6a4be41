//! Firmware volumes whose modules are moved to the addresses at which they lie. The rule is this
//! project's own.
#![tactic(auto)]

mod blocks;
mod bytes;
mod entries;
mod file;
mod files;
mod module;
mod moving;
mod sections;
mod standard;
mod volume;

pub use volume::{is_based, rebase_volume};
