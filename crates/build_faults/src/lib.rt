//! The fault of each step of a build has a name.
#![tactic(auto)]

mod laws;

pub use laws::steps_fail_by_name;
