//! The step of the whole build: which images it makes, and the files that it gives.
#![tactic(auto)]

pub mod all;
pub mod outputs;
pub mod wanted;
