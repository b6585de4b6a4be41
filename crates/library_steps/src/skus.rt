//! Whether the walk from each SKU by its parents ends at DEFAULT.
ghost use Rattle.std.specs.Prelude.{◌≡◌, length, true, IfOk};
ghost use Rattle.pcd_resolve.specs.Platform.{SkusEnd};
ghost use Rattle.pcd_resolve.specs.SkuTables.{name_at};
ghost use Rattle.library_steps.specs.Near.{AreNear};
ghost use Rattle.library_steps.specs.Skus.{reaches, skus_end};

use crate::near::{is_default, mark_at, name_at, near_marks};
use build_base::WantOfMemory;
use doc_types::platform::Sku;
use pcd_resolve::sku_tables::tables_of;
use pcd_values::skus::parent;
use std::alloc::Global;

// Whether DEFAULT is so many steps away at most.
#[tactic(auto, using(crate::proofs::SkuLemmas::reaches_step, crate::proofs::SkuLemmas::reaches_none))]
fn reaches(skus: &[Sku], sku: &[u8], count: usize) -> bool
    ensures { result ≡ reaches skus.now sku.now count }
{
    let mut name = sku;
    let mut left = count;
    while left > 0 {
        if is_default(name) {
            return true;
        }
        let Some(next) = parent(skus, name) else {
            return false;
        };
        name = next;
        left -= 1;
    }
    is_default(name)
}

#[tactic(auto, unfolding(crate::specs::Skus::skus_end))]
fn all_reach(skus: &[Sku]) -> bool
    ensures { result ≡ skus_end skus.now }
{
    skus.iter()
        .all(|sku| reaches(skus, sku.name.bytes(), skus.len()))
}

// Whether the walk from the SKU at a place ends at DEFAULT: by its mark, else by that walk.
fn ends_at(skus: &[Sku], marks: &[bool], place: usize) -> bool
    requires { AreNear skus.now (length skus.now) marks.now }
    ensures { result ≡ reaches skus.now (name_at skus.now place) (length skus.now) }
{
    if mark_at(marks, place) {
        return true;
    }
    reaches(skus, name_at(skus, place), skus.len())
}

#[tactic(auto, unfolding(crate::specs::Skus::skus_end))]
fn all_end(skus: &[Sku], marks: &[bool]) -> bool
    requires { AreNear skus.now (length skus.now) marks.now }
    ensures { result ≡ skus_end skus.now }
{
    for place in 0..skus.len() {
        if !ends_at(skus, marks, place) {
            return false;
        }
    }
    true
}

fn ends_by_marks(alloc: Global, skus: &[Sku]) -> Result<bool, WantOfMemory>
    ensures { IfOk result (λ ends. ends ≡ skus_end skus.now) }
{
    let tables = tables_of(alloc, skus)?;
    let marks = near_marks(alloc, skus, &tables)?;
    Ok(all_end(skus, marks.as_slice()))
}

fn every_end(alloc: Global, skus: &[Sku]) -> bool
    ensures { result ≡ skus_end skus.now }
{
    match ends_by_marks(alloc, skus) {
        Ok(ends) => ends,
        Err(_) => all_reach(skus),
    }
}

/// Whether the walk from each SKU by its parents ends at DEFAULT. The time grows with the number of
/// SKUs. Where memory is wanting, it walks from each SKU.
#[tactic(auto, using(crate::proofs::SkuLemmas::all_end))]
pub fn skus_end(alloc: Global, skus: &[Sku]) -> bool
    ensures value { result ≡ skus_end skus.now }
    ensures ends { result ≡ true → SkusEnd skus.now }
{
    every_end(alloc, skus)
}
