//! The lines of a platform's description: what a head enters and each line below it says, or the
//! least of its faults (EDK II DSC specification).
#![tactic(auto)]

mod arches;
mod component_line;
mod form;
mod key_line;
pub mod laws;
mod library_line;
pub mod lines;
pub mod open_mark;
pub mod output_folder;
mod pcd_form;
mod pcd_line;
mod pcd_store;
pub mod platform_name;
pub mod rows;
pub mod section;
pub mod sku_line;
pub mod sku_names;
