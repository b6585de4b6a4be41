//! What the fields of a PCD's line say.
ghost use Rattle.std.specs.Prelude.{◌≡◌, IfOk};
ghost use Rattle.dsc_lines.specs.PcdLines.{plain_value, hii_value, value_in, plain_datum, datum_in, plain_max, max_in, attributes_in, hii_store, vpd_store, store_in};

use crate::pcd_form::small_number;
use crate::section::StoreKind;
use build_base::{Rows, Same, Text, WantOfMemory};
use doc_types::pcd::{Datum, datum_named};
use doc_types::platform::Store;
use std::alloc::Global;

fn plain_value(alloc: Global, fields: &[Text]) -> Result<Option<Text>, WantOfMemory>
    ensures { IfOk result (λ value. value ≡ plain_value fields.now) }
{
    match fields {
        [_, value, ..] => Ok(Some(value.copy(alloc)?)),
        _ => Ok(None),
    }
}

fn hii_value(alloc: Global, fields: &[Text]) -> Result<Option<Text>, WantOfMemory>
    ensures { IfOk result (λ value. value ≡ hii_value fields.now) }
{
    match fields {
        [_, _, _, _, default, ..] => Ok(Some(default.copy(alloc)?)),
        _ => Ok(None),
    }
}

/// The value.
pub fn value_in(
    alloc: Global,
    stored: StoreKind,
    fields: &[Text],
) -> Result<Option<Text>, WantOfMemory>
    ensures { IfOk result (λ value. value ≡ value_in stored fields.now) }
{
    match stored {
        StoreKind::Plain => plain_value(alloc, fields),
        StoreKind::Hii => hii_value(alloc, fields),
        StoreKind::Vpd => Ok(None),
    }
}

fn plain_datum(fields: &[Text]) -> Option<Datum>
    ensures { result ≡ plain_datum fields.now }
{
    match fields {
        [_, _, datum, ..] => datum_named(datum.bytes()),
        _ => None,
    }
}

/// The type of the value.
pub(crate) fn datum_in(stored: StoreKind, fields: &[Text]) -> Option<Datum>
    ensures { result ≡ datum_in stored fields.now }
{
    match stored {
        StoreKind::Plain => plain_datum(fields),
        StoreKind::Hii | StoreKind::Vpd => None,
    }
}

fn plain_max(fields: &[Text]) -> Option<u32>
    ensures { result ≡ plain_max fields.now }
{
    match fields {
        [_, _, _, max, ..] => small_number(max.bytes()),
        _ => None,
    }
}

/// The greatest length of the value.
pub(crate) fn max_in(stored: StoreKind, fields: &[Text]) -> Option<u32>
    ensures { result ≡ max_in stored fields.now }
{
    match stored {
        StoreKind::Plain => plain_max(fields),
        StoreKind::Hii | StoreKind::Vpd => None,
    }
}

fn attributes_in(fields: &[Text]) -> &[u8]
    ensures { result.now ≡ attributes_in fields.now }
{
    match fields {
        [_, attributes, ..] => attributes.bytes(),
        _ => b"".as_slice(),
    }
}

fn hii_store(alloc: Global, fields: &[Text]) -> Result<Store, WantOfMemory>
    ensures { IfOk result (λ store. store ≡ hii_store fields.now) }
{
    match fields {
        [_, variable, guid, offset, fields @ ..] => Ok(Store::Hii {
            variable: variable.copy(alloc)?,
            guid: guid.copy(alloc)?,
            offset: small_number(offset.bytes()).unwrap_or(0),
            attributes: Text::of(alloc, attributes_in(fields))?,
        }),
        _ => Ok(Store::Plain),
    }
}

fn copied_texts(alloc: Global, texts: &[Text]) -> Result<Rows<Text>, WantOfMemory>
    ensures { IfOk result (λ rows. rows ≡ texts.now) }
{
    let mut rows = Rows::new(alloc);
    for text in texts {
        rows.push(text.copy(alloc)?)?;
    }
    Ok(rows)
}

fn vpd_store(alloc: Global, fields: &[Text]) -> Result<Store, WantOfMemory>
    ensures { IfOk result (λ store. store ≡ vpd_store fields.now) }
{
    match fields {
        [_, offset, fields @ ..] => Ok(Store::Vpd {
            offset: small_number(offset.bytes()),
            rest: copied_texts(alloc, fields)?,
        }),
        _ => Ok(Store::Plain),
    }
}

/// Where the PCD is kept.
pub(crate) fn store_in(
    alloc: Global,
    stored: StoreKind,
    fields: &[Text],
) -> Result<Store, WantOfMemory>
    ensures { IfOk result (λ store. store ≡ store_in stored fields.now) }
{
    match stored {
        StoreKind::Plain => Ok(Store::Plain),
        StoreKind::Hii => hii_store(alloc, fields),
        StoreKind::Vpd => vpd_store(alloc, fields),
    }
}
