//! The workspace that `selftest` builds: a package, a platform, a flash description, and as many
//! modules as are wanted.
#![tactic(auto)]

mod constant_texts;
mod count;
mod files;
mod module;
mod numbered_texts;

pub use count::count_of;
pub use files::selftest_files;
pub use module::{edited_text, module_path};
