//! Macros and expressions of the text files of a platform.
#![tactic(auto)]

pub mod expression;
pub mod laws;
mod machine;
pub mod macros;
mod operand;
mod operator;
pub mod table;

pub use expression::{Value, evaluate};
