//! Conditionals and includes of the text files of a platform: the lines that a document comes to.
#![tactic(auto)]

mod conditional;
mod directive;
pub mod document;
pub mod expansion;
pub mod known;
pub mod laws;
mod places;
mod work;

pub use document::OpenDocument;
pub use expansion::{Turned, expand};
pub use known::Known;
pub use macro_expressions::{Value, evaluate};
