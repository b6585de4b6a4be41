//! The value of a SKU.
ghost use Rattle.std.specs.Prelude.{◌≡◌, option_copied};
ghost use Rattle.doc_types.specs.SkuWalks.{stated_parent, parent};
ghost use Rattle.pcd_values.specs.Skus.{own_value, value_within, WalkEnds, IsSkuValue};

use build_base::{Rows, Text};
use doc_types::platform::Sku;
use doc_types::values::SkuRow;

fn own_value<'a>(rows: &'a [SkuRow], name: &[u8]) -> Option<&'a Text>
    ensures { option_copied result ≡ own_value rows.now name.now }
{
    for row in rows {
        if row.sku.bytes() == name {
            return Some(&row.value);
        }
    }
    None
}

fn stated_parent<'a>(skus: &'a [Sku], name: &[u8]) -> Option<&'a [u8]>
    ensures { option_copied result ≡ stated_parent skus.now name.now }
{
    for sku in skus {
        if sku.name.bytes() == name {
            return Some(sku.parent.bytes());
        }
    }
    None
}

#[tactic(auto, unfolding(doc_types::specs::SkuWalks::parent))]
pub fn parent<'a>(skus: &'a [Sku], name: &[u8]) -> Option<&'a [u8]>
    ensures { option_copied result ≡ parent skus.now name.now }
{
    if name == b"DEFAULT".as_slice() {
        return None;
    }
    stated_parent(skus, name)
}

// The value of the first SKU that has one, of so many of the walk.
#[tactic(auto, using(crate::proofs::SkuLemmas::within_step, crate::proofs::SkuLemmas::within_none))]
fn value_within<'a>(rows: &'a [SkuRow], skus: &[Sku], sku: &[u8], count: usize) -> Option<&'a Text>
    ensures { option_copied result ≡ value_within rows.now skus.now sku.now count }
{
    let mut name = sku;
    let mut left = count;
    while left > 0 {
        if let Some(value) = own_value(rows, name) {
            return Some(value);
        }
        let Some(next) = parent(skus, name) else {
            return None;
        };
        name = next;
        left -= 1;
    }
    None
}

fn walk<'a>(rows: &'a [SkuRow], skus: &[Sku], sku: &[u8]) -> Option<&'a Text>
    requires { WalkEnds skus.now sku.now }
    ensures { IsSkuValue rows.now skus.now sku.now (option_copied result) }
{
    value_within(rows, skus, sku, skus.len() + 1)
}

/// The value of a SKU: its own, else its parent's, and so on up to DEFAULT.
pub fn sku_value<'a>(rows: &'a Rows<SkuRow>, skus: &Rows<Sku>, sku: &Text) -> Option<&'a Text>
    requires { WalkEnds skus.now sku.now }
    ensures { IsSkuValue rows.now skus.now sku.now (option_copied result) }
{
    walk(rows.items(), skus.items(), sku.bytes())
}
