//! The order of calls.
ghost use Rattle.std.specs.Prelude.{◌≡◌, ◌&&◌, false, map, slice_index_or, IfOk};
ghost use Rattle.std.specs.List.{find, range_with_len};
ghost use Rattle.library_calls.specs.Calls.{before, is_looped};
ghost use Rattle.library_calls.specs.Order.{call_order};
ghost use Rattle.library_calls.specs.Waiting.{count_before, wait_of, waits_of, first_free, without};

use build_base::{Rows, WantOfMemory};
use std::alloc::Global;

// One that is left, and how many of those that are left must come before it.
#[derive(Clone, Copy)]
struct Waiting {
    place: usize,
    count: usize,
}

fn tells(row: &[bool], x: usize) -> bool
    ensures { result ≡ slice_index_or row.now x false }
{
    match row.get(x) {
        Some(told) => *told,
        None => false,
    }
}

#[tactic(auto, unfolding(crate::specs::Calls::before))]
fn before(rows: &[Rows<bool>], x: usize, y: usize) -> bool
    ensures { result ≡ before rows.now x y }
{
    if x == y {
        return false;
    }
    match rows.get(y) {
        Some(row) => tells(row.items(), x),
        None => false,
    }
}

fn both(rows: &[Rows<bool>], x: usize, y: usize) -> bool
    ensures { result ≡ (before rows.now x y && before rows.now y x) }
{
    before(rows, x, y) && before(rows, y, x)
}

fn is_looped(rows: &[Rows<bool>], all: &[usize], x: usize) -> bool
    ensures { result ≡ is_looped rows.now all.now x }
{
    all.iter().any(|y| both(rows, x, *y))
}

/// The first of those that must come before one that must come before it.
pub(crate) fn first_looped(rows: &[Rows<bool>], all: &[usize]) -> Option<usize>
    ensures { result ≡ find (is_looped rows.now all.now) all.now }
{
    for x in all {
        if is_looped(rows, all, *x) {
            return Some(*x);
        }
    }
    None
}

// How many of those that are left must come before x.
fn count_before(rows: &[Rows<bool>], left: &[usize], x: usize) -> usize
    ensures { result ≡ count_before (before rows.now) left.now x }
{
    let mut count = 0;
    let mut rest = left;
    while let [y, more @ ..] = rest {
        if before(rows, *y, x) {
            count += 1;
        }
        rest = more;
    }
    count
}

fn wait_of(rows: &[Rows<bool>], left: &[usize], x: usize) -> Waiting
    ensures { result ≡ wait_of (before rows.now) left.now x }
{
    Waiting {
        place: x,
        count: count_before(rows, left, x),
    }
}

fn waits_of(
    alloc: Global,
    rows: &[Rows<bool>],
    left: &[usize],
) -> Result<Vec<Waiting>, WantOfMemory>
    ensures { IfOk result (λ all. all.items ≡ waits_of (before rows.now) left.now) }
{
    let mut all = Vec::new(alloc);
    for x in left {
        if all.push(wait_of(rows, left, *x)).is_err() {
            return Err(WantOfMemory);
        }
    }
    Ok(all)
}

// The place of the first that waits for none.
fn first_ready(left: &[Waiting]) -> Option<usize>
    ensures { result ≡ first_free left.now }
{
    left.iter().position(|waiting| waiting.count == 0)
}

fn without(rows: &[Rows<bool>], y: usize, waiting: &Waiting) -> Waiting
    ensures { result ≡ without (before rows.now) y waiting.now }
{
    if before(rows, y, waiting.place) {
        Waiting {
            place: waiting.place,
            count: waiting.count.saturating_sub(1),
        }
    } else {
        *waiting
    }
}

// Those that are left wait no longer for y.
fn all_without(
    alloc: Global,
    rows: &[Rows<bool>],
    y: usize,
    left: &[Waiting],
) -> Result<Vec<Waiting>, WantOfMemory>
    ensures { IfOk result (λ all. all.items ≡ map (without (before rows.now) y) left.now) }
{
    let mut all = Vec::new(alloc);
    for waiting in left {
        if all.push(without(rows, y, waiting)).is_err() {
            return Err(WantOfMemory);
        }
    }
    Ok(all)
}

/// The numbers below this one.
pub fn places(alloc: Global, count: usize) -> Result<Rows<usize>, WantOfMemory>
    ensures { IfOk result (λ all. all ≡ range_with_len 0 count) }
{
    let mut all = Rows::new(alloc);
    for place in 0..count {
        all.push(place)?;
    }
    Ok(all)
}

/// At each turn the first that may come.
pub fn call_order(
    alloc: Global,
    rows: &[Rows<bool>],
    all: &[usize],
) -> Result<Rows<usize>, WantOfMemory>
    ensures { IfOk result (λ order. order ≡ call_order (before rows.now) all.now) }
{
    let mut left = waits_of(alloc, rows, all)?;
    let mut order = Rows::new(alloc);
    while let Some(place) = first_ready(left.as_slice()) {
        let next = left.remove(place).place;
        order.push(next)?;
        left = all_without(alloc, rows, next, left.as_slice())?;
    }
    Ok(order)
}
