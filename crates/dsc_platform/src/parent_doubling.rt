//! Where walks by parents come to after many steps. A place to which none leads is on no circle.
ghost use Rattle.std.specs.Prelude.{◌≡◌, map, IfOk};
ghost use Rattle.std.specs.List.{All};
ghost use Rattle.dsc_platform.specs.FarPlaces.{behind, IsFar, IsMarked, with_mark, Unlooped};

use crate::parent_places::{next_of, push_place};
use build_base::WantOfMemory;
use std::alloc::Global;

fn behind(parents: &[Option<usize>], place: Option<usize>) -> Option<usize>
    ensures { result ≡ behind parents.now place }
{
    match place {
        Some(place) => next_of(parents, place),
        None => None,
    }
}

// Where each place's walk comes to after twice as many steps.
fn grandparents(alloc: Global, far: &[Option<usize>]) -> Result<Vec<Option<usize>>, WantOfMemory>
    ensures { IfOk result (λ twice. twice.items ≡ map (behind far.now) far.now) }
{
    let mut twice = Vec::new(alloc);
    for place in far {
        push_place(&mut twice, behind(far, *place))?;
    }
    Ok(twice)
}

// Where each place's walk comes to after more steps than there are places.
#[tactic(auto, using(crate::proofs::FarLemmas::far_first))]
fn far_places(alloc: Global, parents: &[Option<usize>]) -> Result<Vec<Option<usize>>, WantOfMemory>
    ensures { IfOk result (λ far. IsFar parents.now far.items) }
{
    let mut far = Vec::from_slice(alloc, parents)?;
    let mut left = parents.len();
    while left > 0 {
        far = grandparents(alloc, far.as_slice())?;
        left /= 2;
    }
    Ok(far)
}

fn mark(marks: &mut Vec<bool>, place: Option<usize>)
    ensures { marks.new.items ≡ with_mark marks.old.items place }
{
    if let Some(place) = place {
        if place < marks.len() {
            marks[place] = true;
        }
    }
}

fn ancestor_marks(alloc: Global, far: &[Option<usize>]) -> Result<Vec<bool>, WantOfMemory>
    ensures { IfOk result (λ marks. All (IsMarked marks.items) far.now) }
{
    let mut marks = Vec::new(alloc);
    marks.resize(far.len(), false)?;
    for place in far {
        mark(&mut marks, *place);
    }
    Ok(marks)
}

/// Marks the places to which long walks lead. A place without a mark is on no circle. The work
/// grows with the number of places, and with its logarithm.
#[tactic(auto, using(crate::proofs::FarLemmas::unmarked))]
pub fn marks_of(alloc: Global, parents: &[Option<usize>]) -> Result<Vec<bool>, WantOfMemory>
    ensures { IfOk result (λ marks. Unlooped parents.now marks.items) }
{
    let far = far_places(alloc, parents)?;
    let marks = ancestor_marks(alloc, far.as_slice())?;
    Ok(marks)
}
