//! Volumes that hold themselves, by any number of steps.
ghost use Rattle.std.specs.Prelude.{◌≡◌, ◌∷◌, [], ℕ, ◌+◌, true, IfOk, OnOk};
ghost use Rattle.std.specs.List.{flat_map};
ghost use Rattle.std.specs.BTreeSet.{contains};
ghost use Rattle.volume_nesting.specs.Numbering.{nest_of, is_loop, first_loop};
ghost use Rattle.volume_nesting.specs.Looping.{Saw, Reached, rank_at, falls, all_fall, stays, may_loop};

use crate::numbering::{insert, nest_of};
use build_base::{Rows, WantOfMemory};
use std::alloc::Global;
use std::collections::BTreeSet;
use std::mem;

/// The volumes that one holds by some steps, and those that the last step came to first.
struct Level {
    pub alloc: Global,
    pub seen: BTreeSet<usize>,
    pub edge: Rows<usize>,
}

// A written `Drop` is one call for whoever lets the value go. A derived one is spelled out there.
impl Drop for Level {
    fn drop(self) {
        let Level {
            alloc: _alloc,
            seen: _seen,
            edge: _edge,
        } = self;
    }
}

impl Level {
    #[tactic(auto, using(crate::proofs::LoopLemmas::saw_known, crate::proofs::LoopLemmas::saw_new))]
    fn see(&mut self, volume: usize) -> Result<(), WantOfMemory>
        ensures { OnOk result (Saw (volume ∷ []) self.old self.new) }
    {
        if self.seen.contains(&volume) {
            return Ok(());
        }
        insert(&mut self.seen, volume)?;
        self.edge.push(volume)?;
        Ok(())
    }

    fn see_all(&mut self, volumes: &[usize]) -> Result<(), WantOfMemory>
        ensures { OnOk result (Saw volumes.now self.old self.new) }
    {
        for volume in volumes {
            self.see(*volume)?;
        }
        Ok(())
    }

    fn see_nests(&mut self, nests: &[Rows<usize>], edge: &[usize]) -> Result<(), WantOfMemory>
        ensures { OnOk result (Saw (flat_map (nest_of nests.now) edge.now) self.old self.new) }
    {
        for volume in edge {
            self.see_all(nest_of(nests, *volume))?;
        }
        Ok(())
    }

    // Takes the edge away.
    fn take_edge(&mut self) -> Rows<usize>
        ensures edge { result ≡ self.old.edge }
        ensures none { self.new.edge ≡ [] }
        ensures seen { self.new.seen ≡ self.old.seen }
    {
        mem::replace(&mut self.edge, Rows::new(self.alloc))
    }

    fn is_ended(&self) -> bool
        ensures { result ≡ true → self.now.edge ≡ [] }
    {
        self.edge.items().is_empty()
    }

    // One step more.
    fn step(&mut self, nests: &[Rows<usize>]) -> Result<(), WantOfMemory>
        ensures { (p k : ℕ) → Reached nests.now p k self.old
            → OnOk result (Reached nests.now p (k + 1) self.new) }
    {
        let edge = self.take_edge();
        self.see_nests(nests, edge.items())?;
        Ok(())
    }

    // What a volume holds by one step.
    fn begin(alloc: Global, nests: &[Rows<usize>], volume: usize) -> Result<Level, WantOfMemory>
        ensures { IfOk result (Reached nests.now volume 0) }
    {
        let mut level = Level {
            alloc,
            seen: BTreeSet::new(alloc),
            edge: Rows::new(alloc),
        };
        level.see_all(nest_of(nests, volume))?;
        Ok(level)
    }
}

fn is_loop(alloc: Global, nests: &[Rows<usize>], volume: usize) -> Result<bool, WantOfMemory>
    ensures { IfOk result (λ b. b ≡ is_loop nests.now volume) }
{
    let mut level = Level::begin(alloc, nests, volume)?;
    for _nest in nests {
        if level.is_ended() {
            return Ok(level.seen.contains(&volume));
        }
        level.step(nests)?;
    }
    Ok(level.seen.contains(&volume))
}

fn rank_at(ranks: &[usize], volume: usize) -> usize
    ensures { result ≡ rank_at ranks.now volume }
{
    match ranks.get(volume) {
        Some(rank) => *rank,
        None => 0,
    }
}

fn falls(nests: &[Rows<usize>], ranks: &[usize], volume: usize) -> bool
    ensures { result ≡ falls nests.now ranks.now volume }
{
    let rank = rank_at(ranks, volume);
    let mut left = nest_of(nests, volume);
    while let [held, rest @ ..] = left {
        if rank_at(ranks, *held) > rank {
            return false;
        }
        left = rest;
    }
    true
}

fn stays(nests: &[Rows<usize>], ranks: &[usize], volume: usize) -> bool
    ensures { result ≡ stays nests.now ranks.now volume }
{
    let rank = rank_at(ranks, volume);
    let mut left = nest_of(nests, volume);
    while let [held, rest @ ..] = left {
        if rank <= rank_at(ranks, *held) {
            return true;
        }
        left = rest;
    }
    false
}

#[tactic(auto, using(crate::proofs::LoopLemmas::all_step))]
fn all_fall(nests: &[Rows<usize>], ranks: &[usize]) -> bool
    ensures { result ≡ all_fall nests.now ranks.now }
{
    for volume in 0..nests.len() {
        if !falls(nests, ranks, volume) {
            return false;
        }
    }
    true
}

// A volume of these ranks may hold itself.
fn may_loop(nests: &[Rows<usize>], ranks: &[usize], fall: bool, volume: usize) -> bool
    ensures { result ≡ may_loop nests.now ranks.now fall volume }
{
    if !fall {
        return true;
    }
    stays(nests, ranks, volume)
}

// A volume of these ranks holds itself.
#[tactic(auto, using(crate::proofs::LoopLemmas::no_loop))]
fn loops_by(
    alloc: Global,
    nests: &[Rows<usize>],
    ranks: &[usize],
    fall: bool,
    volume: usize,
) -> Result<bool, WantOfMemory>
    ensures { fall ≡ all_fall nests.now ranks.now
        → IfOk result (λ b. b ≡ is_loop nests.now volume) }
{
    if may_loop(nests, ranks, fall, volume) {
        return is_loop(alloc, nests, volume);
    }
    Ok(false)
}

/// The first volume in file order that holds itself. `ranks` are numbers of the volumes, by which
/// only those are tried that may hold themselves: where a volume's number is greater than those of
/// all that it holds it doesn't, as long as it is nowhere less.
#[tactic(auto, using(crate::proofs::LoopLemmas::find_step, crate::proofs::LoopLemmas::find_here, crate::proofs::LoopLemmas::find_end), unfolding(crate::specs::Numbering::first_loop))]
pub fn first_loop(
    alloc: Global,
    nests: &[Rows<usize>],
    ranks: &[usize],
) -> Result<Option<usize>, WantOfMemory>
    ensures { IfOk result (λ p. p ≡ first_loop nests.now) }
{
    let fall = all_fall(nests, ranks);
    for volume in 0..nests.len() {
        if loops_by(alloc, nests, ranks, fall, volume)? {
            return Ok(Some(volume));
        }
    }
    Ok(None)
}
