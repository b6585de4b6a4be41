//! A wave, whose workers draw its pieces.
ghost use Rattle.std.specs.Prelude.{◌≡◌, ◌≤◌, [], length, map, IfOk};
ghost use Rattle.std.specs.Thread.{IsSync, IsSend};
ghost use Rattle.wave_pool.specs.Wave.{AreCallable, AreAnswers};
ghost use Rattle.drawn_waves.specs.Drawing.{HasTaken, joined_view};
ghost use Rattle.drawn_waves.specs.Seats.{view, IsSeatOf};
ghost use Rattle.drawn_waves.specs.Pieces.{number_of, AreDrawn, HasDrawn, AreAll, Both};

use crate::order::{lay, lift};
use crate::pieces::{Piece, Taken, take_pieces};
use crate::start::piece_table;
use crate::steps::{join_seats, look, split};
use crate::table::{PieceSeat, PieceStart, PieceTable};
use build_base::outside::Gate;
use build_base::text::WantOfMemory;
use std::alloc::Global;
use std::thread::{Threads, join};

/// The results of the work on the items of a wave, in their order.
///
/// The workers are halved and go to std's two-sided join. Each draws pieces until there are no
/// more, so that a worker with short pieces takes more of them. Where no thread can be started
/// the caller does the work itself. `gate` is told of each piece before its work begins.
pub fn draw_wave<
    H: Threads + Sync,
    I: Send + Drop,
    R: Send + Drop,
    G: Gate,
    F: Fn(I) -> Result<R, WantOfMemory> + Sync,
>(
    rt: &H,
    alloc: Global,
    items: Vec<I>,
    workers: u32,
    gate: &G,
    wave: u64,
    work: &F,
) -> Result<Vec<R>, WantOfMemory>
    requires callable { AreCallable F.pre work.now items.items }
    requires some { 1 ≤ workers }
    requires most { workers ≤ 64 }
    ensures { IfOk result (λ results. AreAnswers F.post work.now items.items results.items) }
{
    let count = items.len();
    let PieceStart { table, seat } = piece_table(alloc, items, workers)?;
    let pieces = count as u64;
    let taken = share_out(rt, alloc, &table, seat, workers, pieces, gate, wave, work);
    let results = all_drawn(&table, taken, pieces)?;
    lift(alloc, lay(alloc, results, count)?)
}

// The pieces that so many workers draw.
#[cycle(share_out)]
fn share_out<
    H: Threads + Sync,
    I: Send + Drop,
    R: Send + Drop,
    G: Gate,
    F: Fn(I) -> Result<R, WantOfMemory> + Sync,
>(
    rt: &H,
    alloc: Global,
    table: &PieceTable<I>,
    seat: PieceSeat<I>,
    workers: u32,
    pieces: u64,
    gate: &G,
    wave: u64,
    work: &F,
) -> Taken<I, R>
    requires seat { IsSeatOf table.now seat }
    requires share { (view seat).share ≡ workers }
    requires none { (view seat).numbers ≡ [] }
    requires pieces { pieces ≡ length (view seat).items }
    requires callable { AreCallable F.pre work.now (view seat).items }
    ensures seat { IsSeatOf table.now result.seat }
    ensures wave { HasTaken (view seat) (view result.seat) }
    ensures drawn { IfOk result.results
        (λ taken. HasDrawn F.post work.now (view seat).items (view result.seat).numbers
        taken.items) }
{
    if workers < 2 {
        return take_pieces(alloc, table, seat, pieces, gate, wave, work);
    }
    let (seat, other) = split(table, seat);
    let theirs = workers / 2;
    let ours = workers - theirs;
    let front = move || -> Taken<I, R>
        requires { IsSync H.row × IsSync F.row × IsSync G.row × IsSend I.row × IsSend R.row
            × IsSeatOf table.now seat × ((view seat).share ≡ ours) × ((view seat).numbers ≡ [])
            × (pieces ≡ length (view seat).items) × AreCallable F.pre work.now (view seat).items }
        ensures { IsSeatOf table.entry.now result.seat × HasTaken (view seat) (view result.seat)
            × IfOk result.results
            (λ taken. HasDrawn F.post work.entry.now (view seat).items (view result.seat).numbers
            taken.items) }
    { share_out(rt, alloc, table, seat, ours, pieces, gate, wave, work) };
    let back = move || -> Taken<I, R>
        requires { IsSync H.row × IsSync F.row × IsSync G.row × IsSend I.row × IsSend R.row
            × IsSeatOf table.now other × ((view other).share ≡ theirs) × ((view other).numbers ≡ [])
            × (pieces ≡ length (view other).items) × AreCallable F.pre work.now (view other).items }
        ensures { IsSeatOf table.entry.now result.seat × HasTaken (view other) (view result.seat)
            × IfOk result.results
            (λ taken. HasDrawn F.post work.entry.now (view other).items (view result.seat).numbers
            taken.items) }
    { share_out(rt, alloc, table, other, theirs, pieces, gate, wave, work) };
    let (a, b) = join(rt, front, back);
    both(table, a, b)
}

// What two workers drew, with one seat.
fn both<I: Drop, R: Drop>(
    table: &PieceTable<I>,
    first: Taken<I, R>,
    second: Taken<I, R>,
) -> Taken<I, R>
    requires seats { IsSeatOf table.now first.seat × IsSeatOf table.now second.seat }
    ensures seat { IsSeatOf table.now result.seat }
    ensures view { view result.seat ≡ joined_view (view first.seat) (view second.seat) }
    ensures results { IfOk result.results
        (λ all. Both (λ results. results.items) first.results second.results all.items) }
{
    let seat = join_seats(table, first.seat, second.seat);
    Taken {
        seat,
        results: append_results(first.results, second.results),
    }
}

// The results of both, where both have any.
fn append_results<T: Drop>(
    first: Result<Vec<T>, WantOfMemory>,
    second: Result<Vec<T>, WantOfMemory>,
) -> Result<Vec<T>, WantOfMemory>
    ensures { IfOk result (λ all. Both (λ results. results.items) first second all.items) }
{
    let mut all = first?;
    let mut rest = second?;
    if all.append(&mut rest).is_err() {
        return Err(WantOfMemory);
    }
    Ok(all)
}

// The pieces of a seat that has all shares: every number of the wave, each once.
fn all_drawn<I, R>(
    table: &PieceTable<I>,
    taken: Taken<I, R>,
    pieces: u64,
) -> Result<Vec<Piece<R>>, WantOfMemory>
    requires seat { IsSeatOf table.now taken.seat }
    requires share { (view taken.seat).share ≡ (view taken.seat).workers }
    requires drawn { IfOk taken.results
        (λ drawn. AreDrawn pieces (view taken.seat).numbers drawn.items) }
    ensures same { result ≡ taken.results }
    ensures all { IfOk result (λ drawn. AreAll pieces (map number_of drawn.items)) }
{
    let Taken { seat, results } = taken;
    let _drawn = look(table, seat);
    results
}
