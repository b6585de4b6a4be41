//! The image of vital product data.

use crate::asking::ask_of;
use crate::values::values_of;
use build_base::{Book, Same, WantOfMemory};
use case_calls_documents::rows::pcd;
use case_calls_texts::checked_copy;
use case_player::{Output, Page, Stop};
use doc_types::asks::PlatformAsk;
use doc_types::values::Values;
use doc_types::vpd::{Vpd, VpdPlace};
use shared_value::Shared;
use std::alloc::Global;
use vpd_image::{VpdAsk, vpd_of};

fn vpd_ask_of(alloc: Global, ask: &PlatformAsk, values: Values) -> Result<VpdAsk, WantOfMemory> {
    let values = Shared::new(alloc, values)?;
    let platform = ask.platform.copy(alloc)?;
    let arches = ask.arches.copy(alloc)?;
    Ok(VpdAsk {
        platform,
        values,
        arches,
    })
}

fn tell_place(page: &mut Page, place: &VpdPlace) {
    page.put(b"place");
    pcd(page, &place.pcd);
    page.word(place.sku.bytes());
    page.number(u64::from(place.offset));
    page.number(u64::from(place.size));
    page.end();
}

fn tell_vpd(page: &mut Page, vpd: &Vpd) {
    for place in vpd.places.items() {
        tell_place(page, place);
    }
    page.file(b"VPD.bin", vpd.image.bytes());
    page.file(b"VPD.map", vpd.map.bytes());
}

fn make_vpd(alloc: Global, ask: &VpdAsk) -> Result<Vpd, Stop> {
    let mut book = Book::new(alloc);
    Ok(vpd_of(alloc, book.grant(())?, ask)?)
}

fn vpd_copy(alloc: Global, ask: &VpdAsk) -> Result<Vpd, Stop> {
    let vpd = make_vpd(alloc, ask)?;
    checked_copy(alloc, &vpd)
}

/// The places of a platform's VPD lines, their image and its map, from the values of its dynamic
/// PCDs, or the first fault.
pub(crate) fn call_vpd(page: &mut Page, files: &[Output], path: &str) -> Result<(), Stop> {
    let alloc = page.alloc();
    let ask = ask_of(alloc, files, path)?;
    let values = values_of(alloc, &ask)?;
    let ask = vpd_ask_of(alloc, &ask, values)?;
    tell_vpd(page, &vpd_copy(alloc, &ask)?);
    Ok(())
}
