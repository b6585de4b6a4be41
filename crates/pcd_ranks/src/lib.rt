//! What sets a PCD, by rank: its declaration, the INFs of a module, the platform's lines, SET in the
//! flash description and the words (EDK II Build specification).
#![tactic(auto)]

pub mod assign;
pub mod listing;
pub mod names;
