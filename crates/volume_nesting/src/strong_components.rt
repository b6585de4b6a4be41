//! Numbers of volumes by which those that may hold themselves are told apart: in one walk over all
//! volumes and what they hold, each set of volumes that hold each other gets a number, behind those
//! of the sets that it holds. Nothing rests on these numbers but the time: what they say is looked
//! at before it is used.
ghost use Rattle.std.specs.Prelude.{◌≡◌};

use crate::numbering::nest_of;
use build_base::{Rows, WantOfMemory};
use std::alloc::Global;

/// What is kept of a volume: the turn at which the walk came to it, the earliest turn to which it
/// leads back, and the number of its set.
#[derive(Clone, Copy)]
struct Visit {
    turn: usize,
    back: usize,
    number: Option<usize>,
}

/// A volume, and how many of those that it holds were looked at.
#[derive(Clone, Copy)]
struct Frame {
    volume: usize,
    at: usize,
}

/// A walk: the volumes that it came to, those whose sets have no number yet, those on the way to
/// where it is, and how many turns and sets there were.
struct Walk {
    visits: Vec<Option<Visit>>,
    waiting: Vec<usize>,
    frames: Vec<Frame>,
    turns: usize,
    sets: usize,
}

// A written `Drop` is one call for whoever lets the value go. A derived one is spelled out there.
impl Drop for Walk {
    fn drop(self) {
        let Walk {
            visits: _visits,
            waiting: _waiting,
            frames: _frames,
            turns: _turns,
            sets: _sets,
        } = self;
    }
}

fn push<T: Drop>(list: &mut Vec<T>, item: T) -> Result<(), WantOfMemory> {
    match list.push(item) {
        Ok(()) => Ok(()),
        Err(_) => Err(WantOfMemory),
    }
}

impl Walk {
    fn visit(&self, volume: usize) -> Option<Visit> {
        match self.visits.get(volume) {
            Some(visit) => *visit,
            None => None,
        }
    }

    fn set_visit(&mut self, volume: usize, visit: Visit)
        ensures { self.new.waiting ≡ self.old.waiting }
    {
        if let Some(slot) = self.visits.get_mut(volume) {
            *slot = Some(visit);
        }
    }

    fn lead_back(&mut self, volume: usize, turn: usize) {
        if let Some(visit) = self.visit(volume) {
            if turn < visit.back {
                self.set_visit(
                    volume,
                    Visit {
                        turn: visit.turn,
                        back: turn,
                        number: visit.number,
                    },
                );
            }
        }
    }

    // Comes to a volume.
    fn enter(&mut self, volume: usize) -> Result<(), WantOfMemory> {
        self.turns = self.turns.saturating_add(1);
        let turn = self.turns;
        self.set_visit(
            volume,
            Visit {
                turn,
                back: turn,
                number: None,
            },
        );
        push(&mut self.waiting, volume)?;
        push(&mut self.frames, Frame { volume, at: 0 })
    }

    fn number(&mut self, volume: usize, number: usize)
        ensures { self.new.waiting ≡ self.old.waiting }
    {
        if let Some(visit) = self.visit(volume) {
            self.set_visit(
                volume,
                Visit {
                    turn: visit.turn,
                    back: visit.back,
                    number: Some(number),
                },
            );
        }
    }

    // Numbers the set of a volume, which is all that was opened since.
    fn close_set(&mut self, volume: usize) {
        let number = self.sets;
        self.sets = self.sets.saturating_add(1);
        while let Some(last) = self.waiting.pop() {
            self.number(last, number);
            if last == volume {
                return;
            }
        }
    }

    // Leaves a volume, of which all that it holds was looked at.
    fn leave(&mut self, volume: usize) {
        let Some(visit) = self.visit(volume) else {
            return;
        };
        if visit.back == visit.turn {
            self.close_set(volume);
        }
        if let Some(above) = self.frames.last() {
            let above = above.volume;
            self.lead_back(above, visit.back);
        }
    }

    // Looks at one of the volumes that a volume holds.
    fn look(&mut self, volume: usize, held: usize) -> Result<(), WantOfMemory> {
        match self.visit(held) {
            None => self.enter(held),
            Some(visit) => {
                if visit.number.is_none() {
                    self.lead_back(volume, visit.turn);
                }
                Ok(())
            }
        }
    }

    // One step of the walk, if it isn't at its end.
    fn step(&mut self, nests: &[Rows<usize>]) -> Result<(), WantOfMemory> {
        let Some(frame) = self.frames.pop() else {
            return Ok(());
        };
        match nest_of(nests, frame.volume).get(frame.at) {
            Some(held) => {
                let next = Frame {
                    volume: frame.volume,
                    at: frame.at.saturating_add(1),
                };
                push(&mut self.frames, next)?;
                self.look(frame.volume, *held)
            }
            None => {
                self.leave(frame.volume);
                Ok(())
            }
        }
    }
}

// How many steps a walk over all volumes has: one for each volume, and one for each that it holds.
fn steps_of(nests: &[Rows<usize>]) -> usize {
    let mut steps: usize = nests.len();
    for nest in nests {
        steps = steps.saturating_add(nest.items().len());
    }
    steps
}

// Walks over what a volume holds that wasn't come to.
fn walk_from(
    walk: &mut Walk,
    nests: &[Rows<usize>],
    volume: usize,
    steps: usize,
) -> Result<(), WantOfMemory> {
    if walk.visit(volume).is_some() {
        return Ok(());
    }
    walk.enter(volume)?;
    for _step in 0..steps {
        if walk.frames.is_empty() {
            return Ok(());
        }
        walk.step(nests)?;
    }
    Ok(())
}

fn walk_all(alloc: Global, nests: &[Rows<usize>]) -> Result<Walk, WantOfMemory> {
    let mut visits = Vec::new(alloc);
    visits.resize(nests.len(), None)?;
    let mut walk = Walk {
        visits,
        waiting: Vec::new(alloc),
        frames: Vec::new(alloc),
        turns: 0,
        sets: 0,
    };
    let steps = steps_of(nests);
    for volume in 0..nests.len() {
        walk_from(&mut walk, nests, volume, steps)?;
    }
    Ok(walk)
}

fn number_of(visit: Option<Visit>) -> usize {
    match visit {
        Some(visit) => visit.number.unwrap_or(0),
        None => 0,
    }
}

/// A number for each volume, in file order. Volumes that hold each other have the same one, and it
/// is greater than those of the others that they hold. No clause says so: `first_loop` looks at
/// these numbers before it uses them.
pub fn component_numbers(
    alloc: Global,
    nests: &[Rows<usize>],
) -> Result<Rows<usize>, WantOfMemory> {
    let walk = walk_all(alloc, nests)?;
    let mut numbers = Rows::new(alloc);
    for visit in walk.visits.as_slice() {
        numbers.push(number_of(*visit))?;
    }
    Ok(numbers)
}
