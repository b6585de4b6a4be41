//! A platform's description, read from its lines (EDK II DSC specification).
#![tactic(auto)]

mod components;
mod format;
mod named_platform;
mod parent_doubling;
mod parent_places;
mod reading;
mod repeats;
mod sku_uses;
mod sku_walks;
mod stated;

pub use reading::read_platform;
