//! Calls of what is found for modules and the platform: libraries, dependency expressions, values
//! of PCDs, the image of vital product data.
#![tactic(auto)]

mod asking;
mod choices;
mod depexes;
mod parsing;
mod plans;
mod skus;
mod values;
mod vpd;
mod words;

use case_player::{Output, Page, Stop};

/// Makes the call of this name, and says whether there is one here.
pub fn call(page: &mut Page, files: &[Output], name: &str, words: &str) -> Result<bool, Stop> {
    match name {
        "choose" => choices::call_choose(page, files, words)?,
        "read_back" => depexes::call_read_back(page, files, words)?,
        "compile" => depexes::call_compile(page, files, words)?,
        "compile_module" => depexes::call_compile_module(page, files, words)?,
        _ => return call_on_pcds(page, files, name, words),
    }
    Ok(true)
}

fn call_on_pcds(page: &mut Page, files: &[Output], name: &str, path: &str) -> Result<bool, Stop> {
    match name {
        "parse_value" => parsing::call_parse_value(page, files, path)?,
        "sku_value" => skus::call_sku_value(page, files, path)?,
        "resolve_platform" => values::call_resolve_platform(page, files, path)?,
        "resolve_module" => values::call_resolve_module(page, files, path)?,
        "vpd_of" => vpd::call_vpd(page, files, path)?,
        _ => return Ok(false),
    }
    Ok(true)
}
