//! A worker's turns: it draws numbers until there are no more, and works on their items.
ghost use Rattle.std.specs.Prelude.{◌≡◌, ◌+◌, ◌<◌, [], length, map, IfOk, OnOk, All};
ghost use Rattle.wave_pool.specs.Wave.{AreCallable};
ghost use Rattle.drawn_waves.specs.Drawing.{HasTaken, upto};
ghost use Rattle.drawn_waves.specs.Seats.{view, IsSeatOf};
ghost use Rattle.drawn_waves.specs.Pieces.{number_of, IsPiece, Ends, Rising, WorkedOn};

use crate::steps::draw_item;
use crate::table::{PieceSeat, PieceTable, WorkerView};
use atomic_table::Seat;
use build_base::outside::Gate;
use build_base::text::WantOfMemory;
use std::alloc::Global;

/// The result of the work on one item of a wave.
#[derive(Drop)]
pub struct Piece<R> {
    pub number: u64,
    pub result: R,
}

/// The seat that was handed in, and what its worker made.
#[derive(Drop)]
pub struct Taken<I, R> {
    pub seat: PieceSeat<I>,
    pub results: Result<Vec<Piece<R>>, WantOfMemory>,
}

/// Draws pieces of the wave until a number is at or past its length, or memory is wanting.
///
/// `gate` is told of each piece before the work on it begins. The seat comes back in every case,
/// with its share. Where `results` is refused it may have gained numbers, whose pieces are dropped.
pub fn take_pieces<
    I: Send + Drop,
    R: Send + Drop,
    G: Gate,
    F: Fn(I) -> Result<R, WantOfMemory> + Sync,
>(
    alloc: Global,
    table: &PieceTable<I>,
    seat: PieceSeat<I>,
    pieces: u64,
    gate: &G,
    wave: u64,
    work: &F,
) -> Taken<I, R>
    requires seat { IsSeatOf table.now seat }
    requires pieces { pieces ≡ length (view seat).items }
    requires below { All (λ number. number < pieces) (view seat).numbers }
    requires callable { AreCallable F.pre work.now (view seat).items }
    ensures seat { IsSeatOf table.now result.seat }
    ensures wave { HasTaken (view seat) (view result.seat) }
    ensures numbers { IfOk result.results
        (λ taken. Ends pieces (view seat).numbers (map number_of taken.items)
        (view result.seat).numbers) }
    ensures rising { Rising (view seat).numbers → Rising (view result.seat).numbers }
    ensures near { All (λ number. number < pieces + 64) (view result.seat).numbers }
    ensures whole { (view seat).share ≡ (view seat).workers → (view seat).numbers ≡ [] →
        IfOk result.results (λ taken. map number_of taken.items ≡ upto pieces) }
    ensures results { IfOk result.results
        (λ taken. All (IsPiece F.post work.now (view seat).items) taken.items) }
{
    let PieceSeat { mut seat } = seat;
    let mut results = Vec::new(alloc);
    let mut next = 0;
    loop {
        let (number, item) = draw_item(table, &mut seat, pieces);
        let item = match item {
            Some(item) => item,
            None => return hand_back(seat, Ok(results)),
        };
        gate.enter(wave, number, pieces);
        if work_on(&mut results, number, item, work).is_err() {
            return hand_back(seat, Err(WantOfMemory));
        }
        next = number + 1;
    }
}

// Works on an item, and puts the result behind the others.
fn work_on<I, R: Drop, F: Fn(I) -> Result<R, WantOfMemory>>(
    results: &mut Vec<Piece<R>>,
    number: u64,
    item: I,
    work: &F,
) -> Result<(), WantOfMemory>
    requires { F.pre work.now item }
    ensures { OnOk result
        (WorkedOn F.post work.now number item results.old.items results.new.items) }
{
    let result = work(item)?;
    if results.push(Piece { number, result }).is_err() {
        return Err(WantOfMemory);
    }
    Ok(())
}

// A seat and what its worker made.
fn hand_back<I, R>(
    seat: Seat<Option<I>, WorkerView<I>>,
    results: Result<Vec<Piece<R>>, WantOfMemory>,
) -> Taken<I, R>
    requires { 0 < seat.me.0.share }
    ensures { (result.seat.seat ≡ seat) × (result.results ≡ results) }
{
    Taken {
        seat: PieceSeat { seat },
        results,
    }
}
