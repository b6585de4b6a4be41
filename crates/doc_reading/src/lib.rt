//! How a document of any format is read from its lines: heads of sections, rows below them, blocks
//! of lines, what a field states, and the least fault of a line.
#![tactic(auto)]

mod document;
pub mod form;
mod format;
mod gathered;
pub mod least_check;
pub mod meaning;
pub mod missing;
mod reader;
pub mod segment_name;
pub mod value_fields;
pub mod values;
mod whole;

pub use document::read_document;
pub use format::Format;
pub use reader::{Reader, read_lines};
pub use whole::{DocumentFormat, read_whole};
