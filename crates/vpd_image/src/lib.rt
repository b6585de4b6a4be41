//! The image of vital product data: the values of the PCDs of VPD lines, each in its place (EDK II
//! DSC specification, [PcdsDynamicVpd] sections). The format of the image and of its map is this
//! project's own.
#![tactic(auto)]

pub mod ask;
mod free_map;
mod image;
mod labels;
mod lines;
mod order;
mod places;
mod placing;
mod rows;
mod sizes;
mod vpd;

pub use ask::VpdAsk;
pub use vpd::vpd_of;
