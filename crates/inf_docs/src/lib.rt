//! A module's description, read from its lines (EDK II INF specification).
#![tactic(auto)]

mod class;
mod depex;
mod key;
mod key_line;
pub mod laws;
mod module;
mod names;
mod pcd_line;
mod reading;
mod row;
mod section;
mod tables;

pub use reading::read_inf;
