//! A module's description as rows.

use crate::reading::module_at;
use crate::rows::{begin_row, pcd};
use case_player::{Output, Page, Stop};
use doc_types::depex::DepexPart;
use doc_types::module::{InfDoc, Named, Served, UsedPcd};

fn tell_named(page: &mut Page, name: &[u8], rows: &[Named]) {
    for row in rows {
        begin_row(page, name, &row.at, row.arch);
        page.word(row.name.bytes());
        page.end();
    }
}

fn tell_served(page: &mut Page, row: &Served) {
    page.put(b"serves");
    page.word(row.name.bytes());
    for found in row.types.items() {
        page.name(found);
    }
    page.end();
}

fn tell_pcd(page: &mut Page, row: &UsedPcd) {
    begin_row(page, b"pcd", &row.at, row.arch);
    page.name(&row.asked);
    pcd(page, &row.pcd);
    if let Some(default) = &row.default {
        page.word(default.bytes());
    }
    page.end();
}

fn tell_part(page: &mut Page, part: &DepexPart) {
    begin_row(page, b"depex", &part.at, part.arch);
    if let Some(found) = &part.kind {
        page.name(found);
    }
    page.put(b":");
    for term in part.terms.items() {
        page.word(term.bytes());
    }
    page.end();
}

fn tell_keys(page: &mut Page, module: &InfDoc) {
    page.row(b"name", module.base_name.bytes());
    page.put(b"file");
    page.guid(&module.file_guid);
    page.put(b"\ntype");
    page.name(&module.module_type);
    page.end();
    if !module.version.bytes().is_empty() {
        page.row(b"version", module.version.bytes());
    }
}

fn tell_names(page: &mut Page, module: &InfDoc) {
    tell_named(page, b"package", module.packages.items());
    tell_named(page, b"class", module.classes.items());
    tell_named(page, b"guid", module.guids.items());
}

fn tell_module(page: &mut Page, module: &InfDoc) {
    tell_keys(page, module);
    tell_named(page, b"entry", module.entry_points.items());
    tell_named(page, b"constructor", module.constructors.items());
    tell_named(page, b"destructor", module.destructors.items());
    for row in module.serves.items() {
        tell_served(page, row);
    }
    tell_names(page, module);
    for row in module.pcds.items() {
        tell_pcd(page, row);
    }
    for part in module.depex.items() {
        tell_part(page, part);
    }
}

/// The rows of a document.
pub(crate) fn call_read_inf(page: &mut Page, files: &[Output], path: &str) -> Result<(), Stop> {
    let module = module_at(page.alloc(), files, path)?;
    tell_module(page, &module);
    Ok(())
}
