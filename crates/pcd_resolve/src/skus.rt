//! The chosen SKUs.
ghost use Rattle.std.specs.Prelude.{◌≡◌, map, filter, IfOk};
ghost use Rattle.std.specs.List.{list_any};
ghost use Rattle.std.specs.Str.{bytes_eq};
ghost use Rattle.build_base.specs.Answer.{Checks};
ghost use Rattle.meta_lexer.specs.Faults.{first_fault};
ghost use Rattle.pcd_resolve.specs.Platform.{is_all, is_chosen, sku_unknown};

use build_base::fault_codes::SKU_UNKNOWN;
use build_base::{Refusal, Text, WantOfMemory, refuse};
use doc_types::platform::{PlatformDoc, Sku};
use meta_lexer::words::same_word;
use std::alloc::Global;

pub fn is_all(names: &[Text]) -> bool
    ensures { result ≡ is_all names.now }
{
    match names {
        [name] => same_word(name.bytes(), b"ALL".as_slice()),
        _ => false,
    }
}

fn has_name(names: &[Text], sku: &[u8]) -> bool
    ensures { result ≡ list_any (λ name. bytes_eq name sku.now) names.now }
{
    for name in names {
        if name.bytes() == sku {
            return true;
        }
    }
    false
}

fn is_chosen(names: &[Text], sku: &Sku) -> bool
    ensures { result ≡ is_chosen names.now sku.now }
{
    if is_all(names) {
        return true;
    }
    if sku.name.bytes() == b"DEFAULT".as_slice() {
        return true;
    }
    has_name(names, sku.name.bytes())
}

/// The chosen ones of some SKUs, in their order.
pub fn chosen_skus<'a>(
    alloc: Global,
    names: &[Text],
    skus: &'a [Sku],
) -> Result<Vec<&'a Sku>, WantOfMemory>
    ensures { IfOk result (λ v. map (λ s. s.now) v.items ≡ filter (is_chosen names.now) skus.now) }
{
    let mut picked = Vec::new(alloc);
    for sku in skus {
        if is_chosen(names, sku) {
            if picked.push(sku).is_err() {
                return Err(WantOfMemory);
            }
        }
    }
    Ok(picked)
}

fn is_sku(skus: &[Sku], name: &[u8]) -> bool
    ensures { result ≡ list_any (λ sku. bytes_eq sku.name name.now) skus.now }
{
    for sku in skus {
        if sku.name.bytes() == name {
            return true;
        }
    }
    false
}

fn sku_unknown(alloc: Global, platform: &PlatformDoc, name: &Text) -> Result<(), Refusal>
    ensures { Checks result (sku_unknown platform.now name.now) }
{
    if is_sku(platform.skus.items(), name.bytes()) {
        return Ok(());
    }
    Err(refuse(alloc, SKU_UNKNOWN, &platform.at, name.bytes()))
}

/// Refuses the first name that isn't one of a SKU.
pub fn skus_known(alloc: Global, platform: &PlatformDoc, names: &[Text]) -> Result<(), Refusal>
    ensures { Checks result (first_fault (sku_unknown platform.now) names.now) }
{
    for name in names {
        sku_unknown(alloc, platform, name)?;
    }
    Ok(())
}
