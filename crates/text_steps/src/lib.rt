//! The steps of texts, of dependency expressions and of the report.
#![tactic(auto)]

mod asks;
mod code;
mod depex;
mod report;
pub mod texts;

pub use asks::push_module_asks;
pub use report::Heading;
