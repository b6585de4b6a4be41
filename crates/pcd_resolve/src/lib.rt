//! Kinds and values of the PCDs of a platform and of its modules (EDK II build specification).
#![tactic(auto)]

mod dynamic;
mod faults;
pub mod groups;
mod kinds;
pub mod name_filter;
pub mod packages;
mod platform;
mod resolve;
mod rows;
pub mod sku_tables;
mod sku_values;
pub mod skus;
mod sorted;
mod sought;
mod tables;
mod used;
mod uses;

pub use pcd_ranks::{assign, listing, names};
pub use platform::resolve_platform;
pub use resolve::resolve_module;
