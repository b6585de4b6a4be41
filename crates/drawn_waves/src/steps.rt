//! The steps on the table of a wave: draw, exchange, split and join, and a look at the word.
ghost use Rattle.std.specs.Prelude.{◌≡◌, ℕ, ◌+◌, ◌-◌, ◌/◌, ◌<◌, ◌≤◌, [], ◌∷◌, ◌++◌, length, slice_get, Some, All, sum_by};
ghost use Rattle.atomic_table.specs.Table.{rest};
ghost use Rattle.drawn_waves.specs.Drawing.{upto, longer_view, kept_half, given_half, joined_view, spent_view, Drew, drew, Looked, looked};
ghost use Rattle.drawn_waves.specs.Seats.{view, IsSeatOf};

use crate::table::{PieceSeat, PieceTable, WorkerView};
use atomic_table::{Join, Play, Seat, Split};

pub(crate) struct Draws;

impl<I> Play<Option<I>, WorkerView<I>> for Draws {
    ghost then = { drew };
}

pub(crate) struct Looks;

impl<I> Play<Option<I>, WorkerView<I>> for Looks {
    ghost then = { looked };
}

// The new view has half of the share.
pub(crate) struct Halve;

impl<I> Split<WorkerView<I>> for Halve {
    ghost left = { kept_half };

    ghost right = { given_half };
}

// The new view takes all over, so that its seat holds no slot.
pub(crate) struct Lift;

impl<I> Split<WorkerView<I>> for Lift {
    ghost left = { λ v. spent_view };

    ghost right = { λ v. v };
}

pub(crate) struct Gather;

impl<I> Join<WorkerView<I>> for Gather {
    ghost both = { joined_view };

    ghost spent = { spent_view };
}

type Sat<I> = Seat<Option<I>, WorkerView<I>>;

// Draws the next number, and takes its slot.
fn draw<I>(table: &PieceTable<I>, seat: &mut Sat<I>) -> u64
    requires seat { seat.old.table_id ≡ table.now.table.shared.table_id }
    requires live { 0 < seat.old.me.0.share }
    requires below { All (λ x. x < length seat.old.me.0.items) seat.old.me.0.numbers }
    ensures seat { seat.new.table_id ≡ seat.old.table_id }
    ensures drew { Drew seat.old.me result seat.new.me }
{
    table.table.shared.fetch_add::<Draws>(seat, 0, 1)
}

// Takes the item out of the slot that was taken last.
fn take_item<I>(table: &PieceTable<I>, seat: &mut Sat<I>, number: u64) -> I
    requires seat { seat.old.table_id ≡ table.now.table.shared.table_id }
    requires slot { (item : I) × (seat.old.me.1 ≡ (number, Some item) ∷ rest seat.old.me.1) }
    ensures seat { seat.new.table_id ≡ seat.old.table_id }
    ensures view { seat.new.me.0 ≡ seat.old.me.0 }
    ensures item { seat.old.me.1 ≡ (number, Some result) ∷ rest seat.old.me.1 }
{
    let Some(item) = table.table.shared.exchange(seat, number as usize, None) else {
        unreachable!()
    };
    item
}

/// Draws the next number, and takes its item where there is one.
pub(crate) fn draw_item<I>(
    table: &PieceTable<I>,
    seat: &mut Sat<I>,
    pieces: u64,
) -> (u64, Option<I>)
    requires seat { seat.old.table_id ≡ table.now.table.shared.table_id }
    requires live { 0 < seat.old.me.0.share }
    requires below { All (λ x. x < pieces) seat.old.me.0.numbers }
    requires pieces { pieces ≡ length seat.old.me.0.items }
    ensures seat { seat.new.table_id ≡ seat.old.table_id }
    ensures view { seat.new.me.0 ≡ longer_view seat.old.me.0 result.0 }
    ensures greater { All (λ x. x < result.0) seat.old.me.0.numbers }
    ensures near { result.0 < length seat.old.me.0.items + 64 }
    ensures next { seat.old.me.0.share ≡ seat.old.me.0.workers
        → result.0 ≡ length seat.old.me.0.numbers }
    ensures item { result.1 ≡ slice_get seat.old.me.0.items result.0 }
{
    let number = draw(table, seat);
    if number >= pieces {
        return (number, None);
    }
    (number, Some(take_item(table, seat, number)))
}

/// A new seat with half of the share.
pub(crate) fn split<I>(table: &PieceTable<I>, seat: PieceSeat<I>) -> (PieceSeat<I>, PieceSeat<I>)
    requires seat { IsSeatOf table.now seat }
    requires share { 2 ≤ (view seat).share }
    requires below { All (λ x. x < length (view seat).items) (view seat).numbers }
    ensures seats { IsSeatOf table.now result.0 × IsSeatOf table.now result.1 }
    ensures kept { view result.0 ≡ kept_half (view seat) }
    ensures given { view result.1 ≡ given_half (view seat) }
{
    let PieceSeat { mut seat } = seat;
    let other = table.table.shared.split_seat::<Halve>(&mut seat);
    (PieceSeat { seat }, PieceSeat { seat: other })
}

/// One seat with the shares and the numbers of both.
pub(crate) fn join_seats<I>(
    table: &PieceTable<I>,
    seat: PieceSeat<I>,
    other: PieceSeat<I>,
) -> PieceSeat<I>
    requires seats { IsSeatOf table.now seat × IsSeatOf table.now other }
    ensures seat { IsSeatOf table.now result }
    ensures view { view result ≡ joined_view (view seat) (view other) }
{
    let PieceSeat { mut seat } = seat;
    let PieceSeat { seat: mut other } = other;
    let lifted = table.table.shared.split_seat::<Lift>(&mut other);
    table.table.shared.join_seat::<Gather>(&mut seat, lifted);
    PieceSeat { seat }
}

/// How many numbers were drawn. Where the seat has all shares, its numbers are those below it.
pub(crate) fn look<I>(table: &PieceTable<I>, seat: PieceSeat<I>) -> u64
    requires seat { IsSeatOf table.now seat }
    ensures { (view seat).share ≡ (view seat).workers → (weight : ℕ → ℕ)
        → sum_by weight (view seat).numbers ≡ sum_by weight (upto result) }
{
    let PieceSeat { mut seat } = seat;
    table.table.shared.load::<Looks>(&mut seat, 0)
}
