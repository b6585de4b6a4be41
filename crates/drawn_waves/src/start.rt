//! The table of a wave, before anything is drawn.
ghost use Rattle.std.specs.Prelude.{◌≡◌, ◌≤◌, ◌^◌, [], map, Some, IfOk, vec_len};
ghost use Rattle.drawn_waves.specs.Drawing.{hand};
ghost use Rattle.drawn_waves.specs.Seats.{view, items_of, IsSeatOf};

use crate::table::{PieceSeat, PieceStart, PieceTable, Plan};
use atomic_table::Table;
use build_base::text::WantOfMemory;
use std::alloc::Global;
use std::snapshot::Snapshot;

// With so many items no draw passes the word's end.
const MOST: usize = 1 << 62;

/// The table of a wave and its first seat, which has all shares and no numbers.
///
/// The word is 0, and slot k is at home with item k.
pub fn piece_table<I: Send + Drop>(
    alloc: Global,
    items: Vec<I>,
    workers: u32,
) -> Result<PieceStart<I>, WantOfMemory>
    requires some { 1 ≤ workers }
    requires most { workers ≤ 64 }
    ensures seat { IfOk result (λ start. IsSeatOf start.table start.seat) }
    ensures view { IfOk result (λ start. view start.seat ≡ hand workers [] items.items workers) }
    ensures slots { IfOk result (λ start. start.seat.seat.me.1 ≡ []) }
    ensures items { IfOk result (λ start. items_of start.table ≡ items.items) }
    ensures short { IfOk result (λ start. vec_len items ≤ 2 ^ 62) }
{
    if items.len() > MOST {
        return Err(WantOfMemory);
    }
    let plan = Plan {
        items: Snapshot::of(&items),
        workers,
    };
    let slots = slots(alloc, items)?;
    match Table::new(alloc, &[0], slots, &plan) {
        Ok((table, seat)) => Ok(PieceStart {
            table: PieceTable { table },
            seat: PieceSeat { seat },
        }),
        Err(_) => Err(WantOfMemory),
    }
}

// The items, each in a slot.
fn slots<I: Drop>(alloc: Global, items: Vec<I>) -> Result<Vec<Option<I>>, WantOfMemory>
    ensures { IfOk result (λ slots. slots.items ≡ map Some items.items) }
{
    let mut slots = Vec::new(alloc);
    for item in items {
        if slots.push(Some(item)).is_err() {
            return Err(WantOfMemory);
        }
    }
    Ok(slots)
}
