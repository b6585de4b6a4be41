//! The SKUs from which the walk by parents is found to end at DEFAULT, in one pass.
ghost use Rattle.std.specs.Prelude.{◌≡◌, ◌++◌, ◌∷◌, [], if◌then◌else◌, length, map, set, true, false, IfOk, OnOk};
ghost use Rattle.pcd_resolve.specs.SkuTables.{name_at, AreTables};
ghost use Rattle.library_steps.specs.Near.{mark_at, mark_above, is_near, AreNear};
ghost use Rattle.library_steps.specs.Skus.{is_default};

use build_base::WantOfMemory;
use doc_types::platform::Sku;
use pcd_resolve::sku_tables::{SkuTables, at_place};
use std::alloc::Global;

/// The name of the SKU at a place.
pub fn name_at(skus: &[Sku], place: usize) -> &[u8]
    ensures { result.now ≡ name_at skus.now place }
{
    match skus.get(place) {
        Some(sku) => sku.name.bytes(),
        None => &[],
    }
}

/// Whether a name is that of DEFAULT.
pub fn is_default(name: &[u8]) -> bool
    ensures { result ≡ is_default name.now }
{
    name == b"DEFAULT".as_slice()
}

/// Whether a place is marked.
pub(crate) fn mark_at(marks: &[bool], place: usize) -> bool
    ensures { result ≡ mark_at marks.now place }
{
    match marks.get(place) {
        Some(mark) => *mark,
        None => false,
    }
}

fn mark_above(marks: &[bool], up: Option<usize>) -> bool
    ensures { result ≡ mark_above marks.now up }
{
    match up {
        None => false,
        Some(up) => mark_at(marks, up),
    }
}

fn is_near(skus: &[Sku], ups: &[Option<usize>], marks: &[bool], place: usize) -> bool
    ensures { result ≡ is_near skus.now ups.now marks.now place }
{
    if is_default(name_at(skus, place)) {
        return true;
    }
    mark_above(marks, at_place(ups, place))
}

fn set_mark(marks: &mut Vec<bool>, place: usize)
    ensures { marks.new.items ≡ set marks.old.items place true }
{
    if place < marks.len() {
        marks[place] = true;
    }
}

fn mark_place(skus: &[Sku], ups: &[Option<usize>], marks: &mut Vec<bool>, place: usize)
    ensures { marks.new.items
        ≡ (if is_near skus.now ups.now marks.old.items place then set marks.old.items place true
        else marks.old.items) }
{
    if is_near(skus, ups, marks.as_slice(), place) {
        set_mark(marks, place);
    }
}

fn put_mark(marks: &mut Vec<bool>, mark: bool) -> Result<(), WantOfMemory>
    ensures { OnOk result (marks.new.items ≡ marks.old.items ++ mark ∷ []) }
{
    match marks.push(mark) {
        Ok(()) => Ok(()),
        Err(_) => Err(WantOfMemory),
    }
}

fn no_marks(alloc: Global, skus: &[Sku]) -> Result<Vec<bool>, WantOfMemory>
    ensures { IfOk result (λ marks. marks.items ≡ map (λ sku. false) skus.now) }
{
    let mut marks = Vec::new(alloc);
    for _sku in skus {
        put_mark(&mut marks, false)?;
    }
    Ok(marks)
}

/// Marks the SKUs from which the walk is found to end at DEFAULT. No clause says that all those are
/// marked from which it ends there.
pub(crate) fn near_marks(
    alloc: Global,
    skus: &[Sku],
    tables: &SkuTables,
) -> Result<Vec<bool>, WantOfMemory>
    requires { AreTables skus.now tables.now }
    ensures { IfOk result (λ marks. AreNear skus.now (length skus.now) marks.items) }
{
    let mut marks = no_marks(alloc, skus)?;
    for place in tables.order.as_slice() {
        mark_place(skus, tables.ups.as_slice(), &mut marks, *place);
    }
    Ok(marks)
}
