//! The ten texts of a job, its fields: what is written in them, and what is read from them.
#![tactic(auto)]

pub mod checks;
pub mod fields;
pub mod images;
pub mod job;
mod laws;
pub mod macros;
pub mod readings;
mod workers;

pub use job::Job;
pub use laws::{fields_are_read, fields_have_readings, settings_are_kept};
pub use workers::Workers;
