//! Entries with `*`, each at its least place.
ghost use Rattle.std.specs.Prelude.{◌≡◌, ◌≤◌, ◌+◌, true, ◌++◌, ◌∷◌, [], List, map, OnOk};
ghost use Rattle.build_base.specs.Answer.{AnswersAs, Checks};
ghost use Rattle.vpd_image.specs.Places.{Placed, size_of, align_of, is_free, least_place, placed_before, placed_next, placed_from, end_fault, all_ended};
ghost use Rattle.vpd_image.specs.Rooms.{IsRoom, Holds, room_limit, starred_at, ended};
ghost use Rattle.vpd_image.specs.Tables.{entry_view, placed_view};

use crate::free_map::FreeMap;
use crate::lines::EntryLine;
use crate::places::{END_LIMIT, PlacedLine, check_end, refuse_end};
use crate::sizes::{offset_in, size_of};
use build_base::{Refusal, WantOfMemory};
use doc_types::values::PcdRow;
use std::alloc::Global;

// The least place of a row's value.
fn least(room: &mut FreeMap, row: &PcdRow) -> u64
    requires { IsRoom room.old }
    ensures place { (placed : List Placed) → Holds placed room.old
        → result ≡ least_place placed (align_of row.now.datum) (size_of row.now) }
    ensures kept { (placed : List Placed) → Holds placed room.old → Holds placed room.new }
    ensures small { result ≤ 0x1000000000 }
{
    let size = size_of(row) as u64;
    if size == 0 {
        return 0;
    }
    room.least(row.datum, size)
}

// Takes bytes that are free, if any.
fn take(room: &mut FreeMap, start: u64, size: u64) -> Result<(), WantOfMemory>
    requires { start + size ≤ room_limit }
    ensures { (placed : List Placed) (p : Placed) → Holds placed room.old
        → is_free placed size start ≡ true → p.offset ≡ start → size_of p.entry.row ≡ size
        → OnOk result (Holds (placed ++ p ∷ []) room.new) }
{
    if size == 0 {
        return Ok(());
    }
    room.put(start, size)?;
    Ok(())
}

// Takes the least place of an entry.
#[tactic(auto, unfolding(crate::specs::Places::end_fault, crate::specs::Places::end_of))]
fn place_starred<'a>(
    alloc: Global,
    room: &mut FreeMap,
    entry: &EntryLine<'a>,
) -> Result<PlacedLine<'a>, Refusal>
    requires { IsRoom room.old }
    ensures value { (placed : List Placed) → Holds placed room.old
        → AnswersAs placed_view result (ended (starred_at placed (entry_view entry.now))) }
    ensures kept { (placed : List Placed) → Holds placed room.old
        → OnOk result (Holds (placed ++ starred_at placed (entry_view entry.now) ∷ []) room.new) }
{
    let size = size_of(entry.row) as u64;
    let start = least(room, entry.row);
    if END_LIMIT < start + size {
        return Err(refuse_end(alloc, &entry.line.at, start + size));
    }
    take(room, start, size)?;
    Ok(PlacedLine {
        entry: *entry,
        offset: start as u32,
    })
}

// An entry with a written offset.
fn place_written<'a>(
    alloc: Global,
    entry: &EntryLine<'a>,
    offset: u32,
) -> Result<PlacedLine<'a>, Refusal>
    ensures { AnswersAs placed_view result
        (ended (record { entry = entry_view entry.now; offset = offset })) }
{
    let placed = PlacedLine {
        entry: *entry,
        offset,
    };
    check_end(alloc, &placed)?;
    Ok(placed)
}

// The next entry, behind those above.
#[tactic(auto, unfolding(crate::specs::Places::placed_next))]
fn place<'a>(
    alloc: Global,
    room: &mut FreeMap,
    fixed: &[PlacedLine<'a>],
    above: &[PlacedLine<'a>],
    entry: &EntryLine<'a>,
) -> Result<PlacedLine<'a>, Refusal>
    requires { Holds (placed_before (map placed_view fixed.now) (map placed_view above.now))
        room.old }
    ensures value { AnswersAs placed_view result
        (ended (placed_next (map placed_view fixed.now) (map placed_view above.now)
        (entry_view entry.now))) }
    ensures kept { OnOk result
        (Holds (placed_before (map placed_view fixed.now)
        (map placed_view above.now ++ placed_next (map placed_view fixed.now)
        (map placed_view above.now) (entry_view entry.now) ∷ [])) room.new) }
{
    match offset_in(&entry.line.store) {
        Some(offset) => place_written(alloc, entry, offset),
        None => place_starred(alloc, room, entry),
    }
}

// Puts the next entry behind those above.
fn put_next<'a>(
    alloc: Global,
    room: &mut FreeMap,
    fixed: &[PlacedLine<'a>],
    done: &mut Vec<PlacedLine<'a>>,
    entry: &EntryLine<'a>,
) -> Result<(), Refusal>
    requires { Holds (placed_before (map placed_view fixed.now) (map placed_view done.old.items))
        room.old }
    ensures fault { Checks result
        (end_fault (placed_next (map placed_view fixed.now) (map placed_view done.old.items)
        (entry_view entry.now))) }
    ensures next { OnOk result (map placed_view done.new.items
        ≡ map placed_view done.old.items ++ placed_next (map placed_view fixed.now)
        (map placed_view done.old.items) (entry_view entry.now) ∷ []) }
    ensures kept { OnOk result
        (Holds (placed_before (map placed_view fixed.now) (map placed_view done.new.items))
        room.new) }
{
    let placed = place(alloc, room, fixed, done.as_slice(), entry)?;
    if done.push(placed).is_err() {
        return Err(Refusal::WantOfMemory);
    }
    Ok(())
}

/// All entries, each at its place, in line order, or the first that ends too late.
pub(crate) fn place_all<'a>(
    alloc: Global,
    room: &mut FreeMap,
    fixed: &[PlacedLine<'a>],
    entries: &[EntryLine<'a>],
) -> Result<Vec<PlacedLine<'a>>, Refusal>
    requires { Holds (map placed_view fixed.now) room.old }
    ensures { AnswersAs (λ v. map placed_view v.items) result
        (all_ended (placed_from (map placed_view fixed.now) [] (map entry_view entries.now))) }
{
    let mut done = Vec::new(alloc);
    for i in 0..entries.len() {
        if let Err(refusal) = put_next(alloc, room, fixed, &mut done, &entries[i]) {
            return Err(refusal);
        }
    }
    Ok(done)
}
