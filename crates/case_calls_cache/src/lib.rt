//! Calls of what packs keys, outcomes and caches, and reads them back.
#![tactic(auto)]

mod caches;
mod keys;
mod outcomes;

use case_player::{Output, Page, Stop};

/// Makes the call of this name, and says whether there is one here.
pub fn call(page: &mut Page, files: &[Output], name: &str, path: &str) -> Result<bool, Stop> {
    match name {
        "pack_key" => keys::call_pack_key(page, path)?,
        "unpack_key" => keys::call_unpack_key(page, files, path)?,
        "unpack_outcome" => outcomes::call_unpack_outcome(page, files, path)?,
        _ => return call_on_caches(page, files, name, path),
    }
    Ok(true)
}

fn call_on_caches(page: &mut Page, files: &[Output], name: &str, path: &str) -> Result<bool, Stop> {
    match name {
        "pack" => caches::call_pack(page, files, path)?,
        "unpack" => caches::call_unpack(page, files, path)?,
        "unpack_changed" => caches::call_unpack_changed(page, files, path)?,
        "unpack_cut" => caches::call_unpack_cut(page, files, path)?,
        _ => return Ok(false),
    }
    Ok(true)
}
