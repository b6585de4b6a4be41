//! Lines, numbers, fields and section heads of the text files of a platform.
#![tactic(auto)]

pub mod field;
pub mod guid_braces;
pub mod head;
pub mod line;
pub mod numbers;
pub mod parts;
pub mod refusal;
pub mod token;
mod word_table;
pub mod words;

pub use field::{Span, fields};
pub use guid_braces::guid_of_braces;
pub use head::{Head, section_head};
pub use line::{Line, lines};
pub use numbers::number;
pub use refusal::LexRefusal;
pub use token::{Token, TokenKind, quoted_span, tokens};
pub use word_table::lookup;
