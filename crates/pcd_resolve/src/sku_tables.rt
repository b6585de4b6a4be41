//! Tables of SKUs: where each name stands first, where parents stand, and an order of them.
ghost use Rattle.std.specs.Prelude.{◌≡◌, ◌≤◌, ◌++◌, ◌∷◌, [], ℕ, List, Some, if◌then◌else◌, length, map, set, IfOk, OnOk, option_copied};
ghost use Rattle.std.specs.HashMap.{get};
ghost use Rattle.pcd_resolve.specs.SkuTables.{same_name, has_name, sku_at, Firsts, within, up_from, up_of, at_place, AreTables};

use build_base::{Same, Text, WantOfMemory};
use doc_types::platform::Sku;
use indexmap::IndexMap;
use std::alloc::Global;

/// Where the names of SKUs stand first, where the parent of each SKU stands, and places of SKUs,
/// those of parents before those of their children. No clause says that a parent comes first:
/// what isn't found by this order is found by a walk.
pub struct SkuTables {
    pub firsts: IndexMap<Text, usize>,
    pub ups: Vec<Option<usize>>,
    pub order: Vec<usize>,
}

// Written out, so that a caller that lets tables go has one call here.
impl Drop for SkuTables {
    fn drop(self) {
        let SkuTables {
            firsts: _firsts,
            ups: _ups,
            order: _order,
        } = self;
    }
}

fn put_first(
    alloc: Global,
    firsts: &mut IndexMap<Text, usize>,
    sku: &Sku,
    place: usize,
) -> Result<(), WantOfMemory>
    ensures { (key : List ℕ)
        → OnOk result (get same_name firsts.new key
        ≡ (if has_name key sku.now then Some place else get same_name firsts.old key)) }
{
    let name = sku.name.copy(alloc)?;
    match firsts.insert(name, place) {
        Ok(_) => Ok(()),
        Err(_) => Err(WantOfMemory),
    }
}

// Where each name stands first, from the last SKU on.
fn firsts_of(alloc: Global, skus: &[Sku]) -> Result<IndexMap<Text, usize>, WantOfMemory>
    ensures { IfOk result (Firsts skus.now) }
{
    let mut firsts = IndexMap::new(alloc);
    let mut place = skus.len();
    while place > 0 {
        place -= 1;
        put_first(alloc, &mut firsts, &skus[place], place)?;
    }
    Ok(firsts)
}

fn sku_at<'a>(skus: &'a [Sku], place: Option<&usize>) -> Option<&'a Sku>
    ensures { option_copied result ≡ sku_at skus.now (option_copied place.entry) }
{
    match place {
        Some(place) => skus.get(*place),
        None => None,
    }
}

/// A place that a table may have, where a SKU stands there.
pub fn within(skus: &[Sku], place: Option<&usize>) -> Option<usize>
    ensures { result ≡ within skus.now (option_copied place.entry) }
{
    match place {
        None => None,
        Some(place) => match skus.get(*place) {
            Some(_) => Some(*place),
            None => None,
        },
    }
}

fn up_from(skus: &[Sku], firsts: &IndexMap<Text, usize>, first: Option<&Sku>) -> Option<usize>
    ensures { result ≡ up_from skus.now firsts.now (option_copied first.entry) }
{
    match first {
        None => None,
        Some(first) => within(skus, firsts.get(&first.parent)),
    }
}

#[tactic(auto, unfolding(crate::specs::SkuTables::up_of))]
fn up_of(skus: &[Sku], firsts: &IndexMap<Text, usize>, name: &Text) -> Option<usize>
    ensures { result ≡ up_of skus.now firsts.now name.now }
{
    if name.bytes() == b"DEFAULT".as_slice() {
        return None;
    }
    up_from(skus, firsts, sku_at(skus, firsts.get(name)))
}

/// Takes one place more.
pub(crate) fn put_place(
    places: &mut Vec<Option<usize>>,
    place: Option<usize>,
) -> Result<(), WantOfMemory>
    ensures { OnOk result (places.new.items ≡ places.old.items ++ place ∷ []) }
{
    match places.push(place) {
        Ok(()) => Ok(()),
        Err(_) => Err(WantOfMemory),
    }
}

fn ups_of(
    alloc: Global,
    skus: &[Sku],
    firsts: &IndexMap<Text, usize>,
) -> Result<Vec<Option<usize>>, WantOfMemory>
    ensures { IfOk result (λ ups. ups.items ≡ map (λ sku. up_of skus.now firsts.now sku.name)
        skus.now) }
{
    let mut ups = Vec::new(alloc);
    for sku in skus {
        put_place(&mut ups, up_of(skus, firsts, &sku.name))?;
    }
    Ok(ups)
}

/// What a list of places has at a place.
pub fn at_place(places: &[Option<usize>], place: usize) -> Option<usize>
    ensures { result ≡ at_place places.now place }
{
    match places.get(place) {
        Some(held) => *held,
        None => None,
    }
}

// Marks a place. Whether it is one that had no mark.
fn mark_new(marks: &mut Vec<bool>, place: usize) -> bool {
    if place < marks.len() {
        let is_new = !marks[place];
        marks[place] = true;
        return is_new;
    }
    false
}

fn put_one(places: &mut Vec<usize>, place: usize) -> Result<(), WantOfMemory> {
    match places.push(place) {
        Ok(()) => Ok(()),
        Err(_) => Err(WantOfMemory),
    }
}

// The places from one up to the first that has a mark.
fn path_from(
    alloc: Global,
    ups: &[Option<usize>],
    marks: &mut Vec<bool>,
    start: usize,
) -> Result<Vec<usize>, WantOfMemory> {
    let mut path = Vec::new(alloc);
    let mut place = start;
    for _ in 0..ups.len() {
        if !mark_new(marks, place) {
            return Ok(path);
        }
        put_one(&mut path, place)?;
        match at_place(ups, place) {
            Some(up) => place = up,
            None => return Ok(path),
        }
    }
    Ok(path)
}

// Puts the places of a path, the last one first.
fn put_path(order: &mut Vec<usize>, path: &[usize]) -> Result<(), WantOfMemory> {
    let mut left = path.len();
    while left > 0 {
        left -= 1;
        put_one(order, path[left])?;
    }
    Ok(())
}

fn put_paths(
    alloc: Global,
    ups: &[Option<usize>],
    marks: &mut Vec<bool>,
    order: &mut Vec<usize>,
) -> Result<(), WantOfMemory> {
    for start in 0..ups.len() {
        let path = path_from(alloc, ups, marks, start)?;
        put_path(order, path.as_slice())?;
    }
    Ok(())
}

// Places, each behind that of its parent.
fn order_of(alloc: Global, ups: &[Option<usize>]) -> Result<Vec<usize>, WantOfMemory>
    ensures { IfOk result (λ order. length order.items ≤ length ups.now) }
{
    let mut marks = Vec::new(alloc);
    marks.resize(ups.len(), false)?;
    let mut order = Vec::new(alloc);
    put_paths(alloc, ups, &mut marks, &mut order)?;
    order.truncate(ups.len());
    Ok(order)
}

/// The tables of some SKUs, in time that grows with their number.
pub fn tables_of(alloc: Global, skus: &[Sku]) -> Result<SkuTables, WantOfMemory>
    ensures { IfOk result (AreTables skus.now) }
{
    let firsts = firsts_of(alloc, skus)?;
    let ups = ups_of(alloc, skus, &firsts)?;
    let order = order_of(alloc, ups.as_slice())?;
    Ok(SkuTables { firsts, ups, order })
}

/// Puts what is found at a place.
pub(crate) fn set_place(places: &mut Vec<Option<usize>>, place: usize, found: Option<usize>)
    ensures { places.new.items ≡ set places.old.items place found }
{
    if place < places.len() {
        places[place] = found;
    }
}
