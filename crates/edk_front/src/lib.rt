//! The top call of the program.
#![tactic(auto)]

mod top;

pub use top::run;
