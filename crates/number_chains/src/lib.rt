//! Of each number of a list the places at which it stands, one after another.
#![tactic(auto)]

mod chains;

pub use chains::Chains;
