//! Laws of what is read of documents, in plain statements.
#![tactic(auto)]

mod flash_lines;
mod walks;

pub use flash_lines::{
    bodies_say, device_lines_say, flash_lines_give_rows, rule_lines_say, set_lines_say,
    statements_say, volume_keys_say,
};
pub use walks::{
    file_options_are_found, module_options_are_found, relocation_blocks_are_found,
    relocation_entries_are_words, replaced_texts_are_of_parts, rule_options_are_found,
    tokens_are_found,
};
