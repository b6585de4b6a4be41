//! The build: from the words of the command line to the bytes of the images.
#![tactic(auto)]

mod build;
mod command;
mod content;
mod file_out;
mod host;
mod kept_build;
mod label;
pub mod laws;
mod made;
mod replay;
mod replay_state;
mod request;
mod script;
mod selftest;
pub mod status;
mod stop;
mod summary;
mod top_call;
mod usage;
mod volinfo;
mod words;

pub use status::Status;
pub use top_call::run;
