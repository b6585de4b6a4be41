//! The head of a cache's text: its magic, the edition and the length of the whole text, by which one
//! that was cut is told.
#![tactic(auto)]

mod heads;

pub use heads::{HEAD, NEWEST, before, behind, edition_in, is_edition, is_head, with_head};
