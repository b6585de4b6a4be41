//! A platform's description as rows. A row within a component's braces has a blank in front.

use crate::reading::platform_at;
use crate::rows::{begin_row, pcd};
use build_base::Text;
use case_player::{Output, Page, Stop};
use doc_types::platform::{Component, LibraryLine, PcdLine, PlatformDoc, Sku, Store};

// A word that isn't empty.
fn put_given_word(page: &mut Page, text: &Text) {
    if !text.bytes().is_empty() {
        page.word(text.bytes());
    }
}

fn tell_sku(page: &mut Page, sku: &Sku) {
    page.put(b"sku");
    page.number(sku.id);
    page.word(sku.name.bytes());
    put_given_word(page, &sku.parent);
    page.end();
}

fn tell_library(page: &mut Page, line: &LibraryLine) {
    begin_row(page, b"library", &line.at, line.arch);
    if let Some(kind) = &line.kind {
        page.name(kind);
    }
    page.word(line.class.bytes());
    page.word(line.instance.bytes());
    page.end();
}

fn offset(page: &mut Page, offset: Option<u32>) {
    match offset {
        Some(offset) => page.count(b"at", u64::from(offset)),
        None => page.word(b"anywhere"),
    }
}

fn store(page: &mut Page, found: &Store) {
    match found {
        Store::Plain => {}
        Store::Hii {
            variable,
            guid,
            offset,
            attributes,
        } => {
            page.pair(b"in", variable.bytes());
            page.word(guid.bytes());
            page.number(u64::from(*offset));
            put_given_word(page, attributes);
        }
        Store::Vpd { offset: at, rest } => {
            offset(page, *at);
            for field in rest.items() {
                page.word(field.bytes());
            }
        }
    }
}

fn tell_pcd(page: &mut Page, line: &PcdLine) {
    begin_row(page, b"pcd", &line.at, line.arch);
    page.name(&line.kind);
    page.word(line.sku.bytes());
    pcd(page, &line.pcd);
    if let Some(value) = &line.value {
        page.word(value.bytes());
    }
    if let Some(datum) = &line.datum {
        page.name(datum);
    }
    if let Some(max) = line.max {
        page.number(u64::from(max));
    }
    store(page, &line.store);
    page.end();
}

fn tell_component(page: &mut Page, component: &Component) {
    begin_row(page, b"component", &component.at, component.arch);
    page.word(component.inf.bytes());
    if let Some(guid) = &component.file_guid {
        page.guid(guid);
    }
    page.end();
    for line in component.libraries.items() {
        page.put(b" ");
        tell_library(page, line);
    }
    for line in component.pcds.items() {
        page.put(b" ");
        tell_pcd(page, line);
    }
}

fn tell_keys(page: &mut Page, platform: &PlatformDoc) {
    page.row(b"name", platform.name.bytes());
    page.put(b"guid");
    page.guid(&platform.guid);
    page.put(b"\noutput");
    page.word(platform.output.bytes());
    page.put(b"\narches");
    for arch in platform.arches.items() {
        page.name(arch);
    }
    page.end();
    page.row(b"choice", platform.sku_choice.bytes());
    if let Some(flash) = &platform.flash {
        page.row(b"flash", flash.bytes());
    }
}

fn tell_platform(page: &mut Page, platform: &PlatformDoc) {
    tell_keys(page, platform);
    for sku in platform.skus.items() {
        tell_sku(page, sku);
    }
    for line in platform.libraries.items() {
        tell_library(page, line);
    }
    for component in platform.components.items() {
        tell_component(page, component);
    }
    for line in platform.pcds.items() {
        tell_pcd(page, line);
    }
}

/// The rows of a document.
pub(crate) fn call_read_dsc(page: &mut Page, files: &[Output], path: &str) -> Result<(), Stop> {
    let platform = platform_at(page.alloc(), files, path)?;
    tell_platform(page, &platform);
    Ok(())
}
