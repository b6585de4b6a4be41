//! Calls of what makes headers, files and volumes, and of what reads images.
#![tactic(auto)]

mod files;
mod headers;
mod reading;
mod volumes;
mod words;

use case_player::{Output, Page, Stop};

/// Makes the call of this name, and says whether there is one here.
pub fn call(page: &mut Page, files: &[Output], name: &str, path: &str) -> Result<bool, Stop> {
    match name {
        "te_header" => headers::call_te_header(page, files, path)?,
        "section_alignment" => headers::call_section_alignment(page, files, path)?,
        "file_of" => files::call_file_of(page, files, path)?,
        "compose" => volumes::call_compose(page, files, path)?,
        "rebase_volume" => volumes::call_rebase_volume(page, files, path)?,
        _ => return call_reader(page, files, name, path),
    }
    Ok(true)
}

fn call_reader(page: &mut Page, files: &[Output], name: &str, path: &str) -> Result<bool, Stop> {
    match name {
        "list_text" => reading::call_list_text(page, files, path)?,
        "find_volume" => reading::call_find_volume(page, files, path)?,
        "read_volume" => reading::call_read_volume(page, files, path)?,
        _ => return Ok(false),
    }
    Ok(true)
}
