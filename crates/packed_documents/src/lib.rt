//! The documents and what is made from them as bytes, with one encoding each.
#![tactic(auto)]

pub mod flash;
pub mod made;
pub mod module;
pub mod package;
mod pcds;
pub mod platform;
mod volume;
mod words;
