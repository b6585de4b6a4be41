//! The steps of documents: packages, modules, the platform and the flash description.
#![tactic(auto)]

mod documents;

pub use documents::{dec, flash, inf, platform};
