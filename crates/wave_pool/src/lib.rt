//! Waves of pieces of work on threads, whose results stand in the wave's order.
#![tactic(auto)]

ghost use Rattle.std.specs.Prelude.{◌≡◌, ◌+◌, ◌<◌, ◌≤◌, ◌^◌, ℕ, IfOk, OnOk, length, vec_len};
ghost use Rattle.std.specs.Thread.{IsSync, IsSend};
ghost use Rattle.wave_pool.specs.Wave.{AreCallable, AreAnswers, Both, WorkedOn};

use build_base::outside::Gate;
use build_base::text::WantOfMemory;
use std::alloc::Global;
use std::thread::{Threads, join};

/// The results of the work on the items of a wave, in their order.
///
/// The wave is halved, and its halves go to std's two-sided join, until a part has one worker.
/// Where no thread can be started the caller does the work itself. `gate` is told of each piece
/// before its work begins.
pub fn run_wave<
    H: Threads + Sync,
    I: Send + Drop,
    R: Send + Drop,
    G: Gate,
    F: Fn(I) -> Result<R, WantOfMemory> + Sync,
>(
    rt: &H,
    alloc: Global,
    items: Vec<I>,
    workers: u32,
    gate: &G,
    wave: u64,
    work: &F,
) -> Result<Vec<R>, WantOfMemory>
    requires callable { AreCallable F.pre work.now items.items }
    requires some { 1 ≤ workers }
    requires most { workers ≤ 64 }
    ensures { IfOk result (λ results. AreAnswers F.post work.now items.items results.items) }
{
    let pieces = items.len() as u64;
    halves(rt, alloc, items, workers, gate, wave, 0, pieces, work)
}

// The results of a part of the wave, whose first piece has the number `first`.
#[cycle(halves)]
fn halves<
    H: Threads + Sync,
    I: Send + Drop,
    R: Send + Drop,
    G: Gate,
    F: Fn(I) -> Result<R, WantOfMemory> + Sync,
>(
    rt: &H,
    alloc: Global,
    mut low: Vec<I>,
    workers: u32,
    gate: &G,
    wave: u64,
    first: u64,
    pieces: u64,
    work: &F,
) -> Result<Vec<R>, WantOfMemory>
    requires callable { AreCallable F.pre work.now low.items }
    requires room { first + vec_len low ≤ pieces }
    ensures { IfOk result (λ results. AreAnswers F.post work.now low.items results.items) }
{
    if workers < 2 || low.len() < 2 {
        return in_order(alloc, low, gate, wave, first, pieces, work);
    }
    let cut = low.len() / 2;
    let Ok(high) = low.split_off(cut) else {
        return Err(WantOfMemory);
    };
    let ours = workers / 2;
    let theirs = workers - ours;
    let next = first + cut as u64;
    let front = move || -> Result<Vec<R>, WantOfMemory>
        requires { IsSync H.row × IsSync F.row × IsSync G.row × IsSend I.row × IsSend R.row
            × AreCallable F.pre work.now low.items × (first + vec_len low ≤ pieces) }
        ensures { IfOk result
            (λ results. AreAnswers F.post work.entry.now low.items results.items) }
    { halves(rt, alloc, low, ours, gate, wave, first, pieces, work) };
    let back = move || -> Result<Vec<R>, WantOfMemory>
        requires { IsSync H.row × IsSync F.row × IsSync G.row × IsSend I.row × IsSend R.row
            × AreCallable F.pre work.now high.items × (next + vec_len high ≤ pieces) }
        ensures { IfOk result
            (λ results. AreAnswers F.post work.entry.now high.items results.items) }
    { halves(rt, alloc, high, theirs, gate, wave, next, pieces, work) };
    let (a, b) = join(rt, front, back);
    append_results(a, b)
}

// The results of both, where both have any.
fn append_results<T: Drop>(
    first: Result<Vec<T>, WantOfMemory>,
    second: Result<Vec<T>, WantOfMemory>,
) -> Result<Vec<T>, WantOfMemory>
    ensures { IfOk result (λ all. Both (λ results. results.items) first second all.items) }
{
    let mut all = first?;
    let mut rest = second?;
    if all.append(&mut rest).is_err() {
        return Err(WantOfMemory);
    }
    Ok(all)
}

// The results of a part of the wave, one piece after another.
fn in_order<I: Drop, R: Drop, G: Gate, F: Fn(I) -> Result<R, WantOfMemory>>(
    alloc: Global,
    items: Vec<I>,
    gate: &G,
    wave: u64,
    first: u64,
    pieces: u64,
    work: &F,
) -> Result<Vec<R>, WantOfMemory>
    requires callable { AreCallable F.pre work.now items.items }
    requires room { first + vec_len items ≤ pieces }
    ensures { IfOk result (λ results. AreAnswers F.post work.now items.items results.items) }
{
    let mut results = Vec::new(alloc);
    let mut piece = first;
    for item in items {
        gate.enter(wave, piece, pieces);
        work_on(&mut results, item, work)?;
        piece = piece.saturating_add(1);
    }
    Ok(results)
}

// Works on an item, and puts the result behind the others.
fn work_on<I, R: Drop, F: Fn(I) -> Result<R, WantOfMemory>>(
    results: &mut Vec<R>,
    item: I,
    work: &F,
) -> Result<(), WantOfMemory>
    requires { F.pre work.now item }
    ensures { OnOk result (WorkedOn F.post work.now item results.old.items results.new.items) }
{
    let result = work(item)?;
    if results.push(result).is_err() {
        return Err(WantOfMemory);
    }
    Ok(())
}
