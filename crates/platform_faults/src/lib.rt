//! Faults of platforms and of flash descriptions have names.
#![tactic(auto)]

mod laws;

pub use laws::{flash_faults_have_names, platform_faults_have_names};
