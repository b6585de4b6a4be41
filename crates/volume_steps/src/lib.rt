//! The steps of volumes, of rebased volumes, of devices and of vital product data.
#![tactic(auto)]

mod asks;
mod based;
mod devices;
mod images;
mod volumes;
pub mod vpd;

pub use images::{device, rebased_volume, volume};
