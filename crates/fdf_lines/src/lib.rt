//! What the lines of a flash description say (EDK II FDF specification).
#![tactic(auto)]

mod counts;
pub mod flash_lines;
pub mod rule_line;
mod rule_number;
pub mod rule_options;
pub mod section;
mod standing;

pub use flash_lines::read_rows;
