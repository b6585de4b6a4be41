//! The words of a build, read by one command (EDK II Build specification, options of `build`).
#![tactic(auto)]

mod command;
mod given;
mod laws;
mod lists;
mod words;

pub use laws::words_give_jobs;
pub use words::words_job;
