//! The steps of files: of FILE statements, of modules in volumes and of a priori files.
#![tactic(auto)]

mod apriori;
mod asks;
mod files;
mod items;
mod lent;
mod module_asks;
mod module_files;
mod modules;
mod names;
mod parts;
mod plans;
mod required;
mod sections;
mod words;

pub use items::file;
pub use parts::Shaped;
pub use plans::ModulePlan;
