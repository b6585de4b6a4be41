//! A package's declarations as rows.

use crate::reading::package_at;
use crate::rows::{begin_row, pcd};
use case_player::{Output, Page, Stop};
use doc_types::depex::NamedGuid;
use doc_types::package::{DecDoc, DecPcd};

fn tell_guid(page: &mut Page, row: &NamedGuid) {
    begin_row(page, b"guid", &row.at, row.arch);
    page.word(row.name.bytes());
    page.guid(&row.guid);
    page.end();
}

fn tell_pcd(page: &mut Page, row: &DecPcd) {
    begin_row(page, b"pcd", &row.at, row.arch);
    page.name(&row.kind);
    page.name(&row.datum);
    page.number(u64::from(row.token));
    pcd(page, &row.pcd);
    page.word(row.default.bytes());
    page.end();
}

fn tell_package(page: &mut Page, package: &DecDoc) {
    page.row(b"name", package.name.bytes());
    page.put(b"file");
    page.guid(&package.guid);
    page.end();
    for row in package.guids.items() {
        tell_guid(page, row);
    }
    for row in package.pcds.items() {
        tell_pcd(page, row);
    }
}

/// The rows of a document.
pub(crate) fn call_read_dec(page: &mut Page, files: &[Output], path: &str) -> Result<(), Stop> {
    let package = package_at(page.alloc(), files, path)?;
    tell_package(page, &package);
    Ok(())
}
