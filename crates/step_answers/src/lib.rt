//! What the steps of a build share. Which answers fit the asks, and what the steps that were asked
//! gave. What the words and the platform settle, and where outputs are.
#![tactic(auto)]

pub mod answers;
pub mod contents;
pub mod folders;
pub mod readers;
pub mod settings;
pub mod stems;
pub mod volumes;
pub mod vpd_lines;
