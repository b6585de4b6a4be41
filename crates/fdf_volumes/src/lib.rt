//! The lines of the volumes of a flash description (EDK II FDF specification, section 3.7).
#![tactic(auto)]

pub mod body;
pub mod inf_line;
pub mod statement;
mod volume_key;
pub mod volume_line;
