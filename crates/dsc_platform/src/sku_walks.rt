//! The check that each SKU's walk by parents comes to DEFAULT.
ghost use Rattle.std.specs.Prelude.{◌≡◌};
ghost use Rattle.build_base.specs.Answer.{Checks};
ghost use Rattle.dsc_lines.specs.SkuNames.{Placed};
ghost use Rattle.dsc_platform.specs.FarPlaces.{Unlooped};
ghost use Rattle.dsc_platform.specs.SkuWalks.{is_loop, loop_fault, loops_from, loops_fault};
ghost use Rattle.dsc_platform.specs.Stating.{names_of};

use crate::parent_doubling::marks_of;
use crate::parent_places::{next_of, parents_among};
use build_base::fault_codes::SKU_LOOP;
use build_base::{Refusal, refuse};
use dsc_lines::rows::SkuLine;
use indexmap::IndexMap;
use std::alloc::Global;

// Whether the walk from a place meets it again.
#[tactic(auto, using(crate::proofs::WalkLemmas::comes_none, crate::proofs::WalkLemmas::comes_step))]
fn is_loop(parents: &[Option<usize>], start: usize) -> bool
    ensures { result ≡ is_loop parents.now start }
{
    let mut steps = parents.len();
    let mut place = next_of(parents, start);
    while steps > 0 {
        steps -= 1;
        match place {
            None => return false,
            Some(here) => {
                if here == start {
                    return true;
                }
                place = next_of(parents, here);
            }
        }
    }
    false
}

fn check_loop(
    alloc: Global,
    parents: &[Option<usize>],
    place: usize,
    line: &SkuLine,
) -> Result<(), Refusal>
    ensures { Checks result (loop_fault parents.now place line.now) }
{
    if is_loop(parents, place) {
        return Err(refuse(alloc, SKU_LOOP, &line.at, line.sku.name.bytes()));
    }
    Ok(())
}

// The same, where a place without a mark is on no circle.
fn check_place(
    alloc: Global,
    parents: &[Option<usize>],
    marks: &[bool],
    place: usize,
    line: &SkuLine,
) -> Result<(), Refusal>
    requires { Unlooped parents.now marks.now }
    ensures { Checks result (loop_fault parents.now place line.now) }
{
    match marks.get(place) {
        Some(false) => Ok(()),
        Some(true) | None => check_loop(alloc, parents, place, line),
    }
}

fn check_walks(
    alloc: Global,
    parents: &[Option<usize>],
    marks: &[bool],
    skus: &[SkuLine],
) -> Result<(), Refusal>
    requires { Unlooped parents.now marks.now }
    ensures { Checks result (loops_from parents.now 0 skus.now) }
{
    for (place, line) in skus.iter().enumerate() {
        if let Err(refusal) = check_place(alloc, parents, marks, place, line) {
            return Err(refusal);
        }
    }
    Ok(())
}

/// Refuses the first SKU whose walk meets its start.
#[tactic(auto, unfolding(crate::specs::SkuWalks::loops_fault))]
pub fn check_loops(
    alloc: Global,
    names: &IndexMap<Vec<u8>, usize>,
    skus: &[SkuLine],
) -> Result<(), Refusal>
    ensures { Placed (names_of skus.now) names.now → Checks result (loops_fault skus.now) }
{
    let parents = parents_among(alloc, names, skus)?;
    let marks = marks_of(alloc, parents.as_slice())?;
    check_walks(alloc, parents.as_slice(), marks.as_slice(), skus)
}
