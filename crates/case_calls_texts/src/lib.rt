//! Calls of what reads texts and lines of a document, and what the calls of other crates read their
//! files by.
#![tactic(auto)]

mod copies;
mod expanding;
mod keeping;
mod lines;
mod texts;

use case_player::{Output, Page, Stop};
pub use copies::checked_copy;
pub use lines::{lines_of, path_of, place_of};

/// Makes the call of this name, and says whether there is one here.
pub fn call(page: &mut Page, files: &[Output], name: &str, path: &str) -> Result<bool, Stop> {
    match name {
        "evaluate" => texts::call_evaluate(page, files, path)?,
        "number" => texts::call_number(page, files, path)?,
        "fields" => texts::call_fields(page, files, path)?,
        "tokens" => texts::call_tokens(page, files, path)?,
        "heads" => texts::call_heads(page, files, path)?,
        _ => return call_on_lines(page, files, name, path),
    }
    Ok(true)
}

fn call_on_lines(page: &mut Page, files: &[Output], name: &str, path: &str) -> Result<bool, Stop> {
    match name {
        "expand" => expanding::call_expand(page, files, path)?,
        "wanted" => expanding::call_wanted(page, files, path)?,
        "keeper" => keeping::call_keeper(page, files, path)?,
        _ => return Ok(false),
    }
    Ok(true)
}
