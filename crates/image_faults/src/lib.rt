//! Faults of files, volumes and devices have names.
#![tactic(auto)]

mod laws;

pub use laws::{
    contents_fail_by_name, devices_fail_by_name, files_fail_by_name, plans_fail_by_name,
    rules_are_found, sections_fail_by_name, volumes_fail_by_name,
};
