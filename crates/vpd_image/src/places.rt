//! Where the entries stand.
ghost use Rattle.std.specs.Prelude.{◌≡◌, ◌<◌, ◌+◌, ◌^◌, ◌++◌, ◌∷◌, [], Some, find, map, codes, decimal, IfOk, OnOk};
ghost use Rattle.std.specs.Option.{option_map};
ghost use Rattle.build_base.specs.Answer.{Checks, Finds};
ghost use Rattle.build_base.specs.FaultText.{fault_of};
ghost use Rattle.vpd_image.specs.Places.{end_of, shares, share, placed_if, written_entries, overlap_of, overlap_with, overlap_fault, end_fault, long_fault};
ghost use Rattle.vpd_image.specs.Rooms.{Holds};
ghost use Rattle.vpd_image.specs.Tables.{entry_view, placed_view};
ghost use Rattle.build_base.specs.FaultCodes.{VPD_OVERLAP, VPD_TOO_LONG};

use crate::free_map::FreeMap;
use crate::lines::EntryLine;
use crate::sizes::{offset_in, size_of};
use build_base::fault_codes::{VPD_OVERLAP, VPD_TOO_LONG};
use build_base::{Fault, Place, Refusal, Same, Text, WantOfMemory, refuse};
use itoa::Buffer;
use std::alloc::Global;

/// An entry, and where it starts.
#[derive(Clone, Copy)]
pub(crate) struct PlacedLine<'a> {
    pub entry: EntryLine<'a>,
    pub offset: u32,
}

/// Where every entry ends at the latest.
pub(crate) const END_LIMIT: u64 = 0x100_0000;

/// Where an entry ends.
#[tactic(auto, unfolding(crate::specs::Places::end_of))]
pub fn end_of(placed: &PlacedLine<'_>) -> u64
    ensures value { result ≡ end_of (placed_view placed.now) }
    ensures small { result < 2 ^ 33 }
{
    placed.offset as u64 + size_of(placed.entry.row) as u64
}

fn put_written<'a>(
    found: &mut Vec<PlacedLine<'a>>,
    entry: &EntryLine<'a>,
    offset: Option<u32>,
) -> Result<(), WantOfMemory>
    ensures { OnOk result (map placed_view found.new.items
        ≡ map placed_view found.old.items ++ placed_if (entry_view entry.now) offset) }
{
    if let Some(offset) = offset {
        let placed = PlacedLine {
            entry: *entry,
            offset,
        };
        if found.push(placed).is_err() {
            return Err(WantOfMemory);
        }
    }
    Ok(())
}

/// The entries with a written offset.
#[tactic(auto, unfolding(crate::specs::Places::written_entries))]
pub fn written_entries<'a>(
    alloc: Global,
    entries: &[EntryLine<'a>],
) -> Result<Vec<PlacedLine<'a>>, WantOfMemory>
    ensures { IfOk result
        (λ v. map placed_view v.items ≡ written_entries (map entry_view entries.now)) }
{
    let mut found = Vec::new(alloc);
    let mut left = entries;
    while let [entry, rest @ ..] = left {
        put_written(&mut found, entry, offset_in(&entry.line.store))?;
        left = rest;
    }
    Ok(found)
}

#[tactic(auto, unfolding(crate::specs::Places::share))]
fn share(start: u64, end: u64, first: u64, last: u64) -> bool
    ensures { result ≡ share start end first last }
{
    start.max(first) < end.min(last)
}

fn first_shared<'a>(above: &[PlacedLine<'a>], start: u64, end: u64) -> Option<PlacedLine<'a>>
    ensures { option_map placed_view result ≡ find (shares start end) (map placed_view above.now) }
{
    let mut left = above;
    while let [other, rest @ ..] = left {
        if share(start, end, other.offset as u64, end_of(other)) {
            return Some(*other);
        }
        left = rest;
    }
    None
}

// `first < second`.
fn comparison_text(alloc: Global, first: u64, second: u64) -> Result<Text, WantOfMemory>
    ensures { IfOk result (λ t. t ≡ decimal first ++ codes " < " ++ decimal second) }
{
    let mut digits = Buffer::new();
    let mut out = Vec::from_slice(alloc, digits.format(first).as_bytes())?;
    out.extend_from_slice(b" < ")?;
    out.extend_from_slice(digits.format(second).as_bytes())?;
    Ok(Text::from_vec(out))
}

fn refuse_compared(alloc: Global, at: &Place, first: u64, second: u64) -> Refusal
    ensures { Finds result
        (Some (fault_of VPD_OVERLAP at.now (decimal first ++ codes " < " ++ decimal second))) }
{
    match comparison_text(alloc, first, second) {
        Ok(detail) => refuse(alloc, VPD_OVERLAP, at, detail.bytes()),
        Err(_) => Refusal::WantOfMemory,
    }
}

// Two that have bytes in common.
#[tactic(auto, unfolding(crate::specs::Places::overlap_of))]
fn refuse_overlap(alloc: Global, placed: &PlacedLine<'_>, other: &PlacedLine<'_>) -> Refusal
    ensures { Finds result (Some (overlap_of (placed_view placed.now) (placed_view other.now))) }
{
    let start = placed.offset.max(other.offset);
    let end = end_of(placed).min(end_of(other));
    refuse_compared(alloc, &placed.entry.line.at, start as u64, end)
}

// The first of those above with which an entry has bytes in common.
fn check_overlap(
    alloc: Global,
    above: &[PlacedLine<'_>],
    placed: &PlacedLine<'_>,
) -> Result<(), Refusal>
    ensures { Checks result (overlap_with (map placed_view above.now) (placed_view placed.now)) }
{
    match first_shared(above, placed.offset as u64, end_of(placed)) {
        Some(other) => Err(refuse_overlap(alloc, placed, &other)),
        None => Ok(()),
    }
}

// Takes the bytes of a written entry, if none of them is taken.
fn take_written(
    alloc: Global,
    room: &mut FreeMap,
    above: &[PlacedLine<'_>],
    placed: &PlacedLine<'_>,
) -> Result<(), Refusal>
    requires { Holds (map placed_view above.now) room.old }
    ensures fault { Checks result
        (overlap_with (map placed_view above.now) (placed_view placed.now)) }
    ensures kept { OnOk result
        (Holds (map placed_view above.now ++ placed_view placed.now ∷ []) room.new) }
{
    let size = size_of(placed.entry.row) as u64;
    if size == 0 {
        return Ok(());
    }
    if room.is_free(placed.offset as u64, size) {
        room.put(placed.offset as u64, size)?;
        return Ok(());
    }
    check_overlap(alloc, above, placed)?;
    unreachable!()
}

/// Takes the bytes of all written entries.
pub(crate) fn take_all_written(
    alloc: Global,
    room: &mut FreeMap,
    fixed: &[PlacedLine<'_>],
) -> Result<(), Refusal>
    requires { Holds [] room.old }
    ensures fault { Checks result (overlap_fault [] (map placed_view fixed.now)) }
    ensures kept { OnOk result (Holds (map placed_view fixed.now) room.new) }
{
    for i in 0..fixed.len() {
        if let Err(refusal) = take_written(alloc, room, &fixed[..i], &fixed[i]) {
            return Err(refusal);
        }
    }
    Ok(())
}

/// An entry at a place ends too late.
pub(crate) fn refuse_end(alloc: Global, at: &Place, end: u64) -> Refusal
    ensures { Finds result (Some (fault_of VPD_TOO_LONG at.now (decimal end))) }
{
    let mut digits = Buffer::new();
    refuse(alloc, VPD_TOO_LONG, at, digits.format(end).as_bytes())
}

/// Whether an entry ends too late.
#[tactic(auto, unfolding(crate::specs::Places::end_fault))]
pub fn check_end(alloc: Global, placed: &PlacedLine<'_>) -> Result<(), Refusal>
    ensures { Checks result (end_fault (placed_view placed.now)) }
{
    let end = end_of(placed);
    if END_LIMIT < end {
        return Err(refuse_end(alloc, &placed.entry.line.at, end));
    }
    Ok(())
}

/// The first that ends too late.
#[tactic(auto, unfolding(crate::specs::Places::long_fault))]
pub(crate) fn check_ends(alloc: Global, fixed: &[PlacedLine<'_>]) -> Result<(), Refusal>
    ensures { Checks result (long_fault (map placed_view fixed.now)) }
{
    let mut left = fixed;
    while let [placed, rest @ ..] = left {
        check_end(alloc, placed)?;
        left = rest;
    }
    Ok(())
}
