//! The table of a wave, and its seats. Its word is how many numbers were drawn. Slot k is at home
//! with item k until a seat draws the number k.
ghost use Rattle.std.specs.Prelude.{◌≡◌, ◌<◌};

use atomic_table::{Seat, Table, TableRule};
use std::alloc::Global;
use std::collections::LinkedList;
use std::snapshot::Snapshot;

/// What a seat knows: its share of the workers, the numbers that it drew, and the wave. No value
/// of it is made.
pub struct WorkerView<I> {
    pub share: u64,
    pub numbers: LinkedList<u64>,
    pub items: LinkedList<I>,
    pub workers: u64,
}

/// What a table is made for. It has the items in proofs alone.
#[derive(Drop)]
pub struct Plan<I> {
    pub items: Snapshot<Vec<I>>,
    pub workers: u32,
}

/// The rule: the numbers in the views are those below the word, each once.
pub struct Drawing;

impl<I> TableRule<Option<I>, WorkerView<I>, Plan<I>> for Drawing {
    ghost use Rattle.std.specs.Prelude.{[]};
    ghost use Rattle.drawn_waves.specs.Drawing.{Drawn, hand};

    ghost holds = { λ plan. Drawn plan.items.value.items plan.workers };

    ghost first = { λ plan. hand plan.workers [] plan.items.value.items plan.workers };
}

/// The table of a wave, which has one word and a slot for each item.
#[derive(Drop)]
pub struct PieceTable<I> {
    pub(crate) table: Table<Option<I>, WorkerView<I>, Plan<I>, Drawing, Global>,
    ghost one_word: { table.shared.table_id.words ≡ 1 },
}

/// A seat at such a table. It has no bytes.
#[derive(Drop)]
pub struct PieceSeat<I> {
    pub(crate) seat: Seat<Option<I>, WorkerView<I>>,
    ghost live: { 0 < seat.me.0.share },
}

/// A table with its first seat.
#[derive(Drop)]
pub struct PieceStart<I> {
    pub table: PieceTable<I>,
    pub seat: PieceSeat<I>,
}
