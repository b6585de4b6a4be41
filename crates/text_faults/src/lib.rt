//! Faults of the lines of documents, and of packages and modules, have names.
#![tactic(auto)]

mod laws;

pub use laws::{line_faults_have_names, module_faults_have_names, package_faults_have_names};
