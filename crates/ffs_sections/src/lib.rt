//! Firmware files and their sections (UEFI PI specification, volume 3).
#![tactic(auto)]

pub mod alignment;
pub mod faults;
mod file;
pub mod header;
mod lent;
mod lent_plan;
mod sections;
mod sizes;
pub mod standard;
mod sums;

pub use file::{file_of, file_of_lent};
pub use lent::{LentContent, LentPart};
pub use lent_plan::{LentBody, LentPlan};
pub use sections::have_guids;
pub use sizes::file_length;
pub use sums::{body_sum, header_sum, header_sum_long};
