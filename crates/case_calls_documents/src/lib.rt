//! Calls of what reads documents. A document is told as lines of standard output, one for each of
//! its rows.
#![tactic(auto)]

mod flash;
mod modules;
mod packages;
mod platforms;
mod reading;
pub mod rows;
mod rules;

use case_player::{Output, Page, Stop};
pub use reading::{flash_of, module_at, module_of, package_of, platform_at, platform_of};

/// Makes the call of this name, and says whether there is one here.
pub fn call(page: &mut Page, files: &[Output], name: &str, path: &str) -> Result<bool, Stop> {
    match name {
        "read_dec" => packages::call_read_dec(page, files, path)?,
        "read_inf" => modules::call_read_inf(page, files, path)?,
        "read_dsc" => platforms::call_read_dsc(page, files, path)?,
        "read_flash" => flash::call_read_flash(page, files, path)?,
        "count_flash" => flash::call_count_flash(page, files, path)?,
        "modules" => rules::call_modules(page, files, path)?,
        _ => return Ok(false),
    }
    Ok(true)
}
