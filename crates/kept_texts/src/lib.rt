//! The text that is kept of a cache: the whole one, and read as a cache only where it is whole.
#![tactic(auto)]

mod texts;

pub use texts::{cache_in, text_of};
