//! The value of each SKU of a platform.

ghost use Rattle.std.specs.List.{All};
ghost use Rattle.doc_types.specs.SkuWalks.{EndsAtDefault};

use crate::asking::ask_of;
use build_base::{Rows, Same, Text};
use case_player::{Output, Page, Stop};
use doc_types::pcd::PcdSet;
use doc_types::platform::Sku;
use doc_types::values::SkuRow;
use pcd_values::sku_value;
use std::alloc::Global;

#[tactic(auto, using(doc_types::proofs::WalkLemmas::walk_ends))]
fn tell_sku(page: &mut Page, rows: &Rows<SkuRow>, skus: &Rows<Sku>, sku: &Text)
    requires { EndsAtDefault skus.now sku.now }
{
    page.put(sku.bytes());
    match sku_value(rows, skus, sku) {
        Some(value) => page.word(value.bytes()),
        None => page.word(b"none"),
    }
    page.end();
}

fn tell_skus(page: &mut Page, rows: &Rows<SkuRow>, skus: &Rows<Sku>, list: &[Sku])
    requires { All (λ sku. EndsAtDefault skus.now sku.name) list.now }
{
    for sku in list {
        tell_sku(page, rows, skus, &sku.name);
    }
}

fn row_of(alloc: Global, set: &PcdSet) -> Result<SkuRow, Stop> {
    let sku = set.pcd.name.copy(alloc)?;
    let value = set.value.copy(alloc)?;
    Ok(SkuRow { sku, value })
}

fn rows_of(alloc: Global, sets: &[PcdSet]) -> Result<Rows<SkuRow>, Stop> {
    let mut rows = Rows::new(alloc);
    for set in sets {
        rows.push(row_of(alloc, set)?)?;
    }
    Ok(rows.copy(alloc)?)
}

/// The value of each SKU, where the sets of the call's file name SKUs by PCDs of the token space
/// `sku`.
pub(crate) fn call_sku_value(page: &mut Page, files: &[Output], path: &str) -> Result<(), Stop> {
    let alloc = page.alloc();
    let ask = ask_of(alloc, files, path)?;
    let rows = rows_of(alloc, ask.flash.value().sets.items())?;
    let skus = &ask.platform.value().skus;
    tell_skus(page, &rows, skus, skus.items());
    Ok(())
}
