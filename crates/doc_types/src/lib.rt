//! The documents and the plans that are read from them.
#![tactic(auto)]

pub mod arch;
pub mod asks;
pub mod choice;
pub mod components;
pub mod depex;
pub mod flash;
pub mod image;
pub mod library_lines;
pub mod module;
pub mod module_type;
pub mod name_places;
pub mod package;
pub mod parts;
pub mod pcd;
pub mod pcd_lines;
pub mod platform;
pub mod standard;
pub mod texts;
pub mod values;
pub mod volume;
pub mod volume_head;
pub mod vpd;
