//! Which instances lead to which by their classes. Each class is looked up once. Walks go by the
//! places of the instances in the list of what is found.
ghost use Rattle.std.specs.Prelude.{◌≡◌, ◌++◌, ◌∷◌, [], nat_eq, map, IfOk, OnOk};
ghost use Rattle.std.specs.List.{All, filter_map};
ghost use Rattle.library_choice.specs.Closure.{instance_of, next};
ghost use Rattle.library_choice.specs.Choices.{reach};
ghost use Rattle.library_choice.specs.Found.{is_in};
ghost use Rattle.library_choice.specs.Reaching.{IsWhole, IsWithin, LedTo, AreFound, place_in, next_at, nexts_in, leads_at, caller_places, reach_at};
ghost use Rattle.library_choice.specs.Search.{Passed as WentOn};

use crate::closure::MOST_INSTANCES;
use crate::found::Found;
use crate::passed::Passed;
use crate::tables::Tables;
use build_base::{Path, Rows, WantOfMemory};
use doc_types::module::Named;
use library_calls::WithCalls;
use std::alloc::Global;

fn push_place(
    tables: &Tables<'_>,
    found: &Found,
    class: &Named,
    places: &mut Rows<usize>,
) -> Result<(), WantOfMemory>
    ensures { OnOk result (places.new ≡ places.old
        ++ map (place_in found.now) (filter_map (instance_of tables.now) (class.now ∷ []))) }
{
    match tables.instance_of(class) {
        Some(path) => places.push(found.place_of(path)),
        None => Ok(()),
    }
}

fn push_places(
    tables: &Tables<'_>,
    found: &Found,
    classes: &[Named],
    places: &mut Rows<usize>,
) -> Result<(), WantOfMemory>
    ensures { OnOk result (places.new ≡ places.old
        ++ map (place_in found.now) (filter_map (instance_of tables.now) classes.now)) }
{
    let mut left = classes;
    while let [class, rest @ ..] = left {
        push_place(tables, found, class, places)?;
        left = rest;
    }
    Ok(())
}

// The places of the instances one step on from a path.
#[tactic(auto, unfolding(crate::specs::Closure::next))]
fn next_places(
    alloc: Global,
    tables: &Tables<'_>,
    found: &Found,
    path: &Path,
) -> Result<Rows<usize>, WantOfMemory>
    ensures { IfOk result
        (λ places. places ≡ map (place_in found.now) (next tables.now path.now)) }
{
    let mut places = Rows::new(alloc);
    if let Some(inf) = tables.inf_at(path) {
        push_places(tables, found, inf.classes.items(), &mut places)?;
    }
    Ok(places)
}

fn nexts_in(
    alloc: Global,
    tables: &Tables<'_>,
    found: &Found,
) -> Result<Rows<Rows<usize>>, WantOfMemory>
    ensures { IfOk result (λ nexts. nexts ≡ nexts_in tables.now found.now) }
{
    let mut nexts = Rows::new(alloc);
    for path in found.items() {
        nexts.push(next_places(alloc, tables, found, path)?)?;
    }
    Ok(nexts)
}

fn caller_places(
    alloc: Global,
    found: &Found,
    callers: &[WithCalls],
) -> Result<Rows<usize>, WantOfMemory>
    ensures { IfOk result (λ places. places ≡ caller_places found.now callers.now) }
{
    let mut places = Rows::new(alloc);
    for caller in callers {
        places.push(found.place_of(&caller.inf))?;
    }
    Ok(places)
}

fn next_at(nexts: &[Rows<usize>], place: usize) -> &[usize]
    ensures { result.now ≡ next_at nexts.now place }
{
    match nexts.get(place) {
        Some(places) => places.items(),
        None => &[],
    }
}

// Passes the queue of places. True where nothing is left to pass, false where there are too many.
fn pass(nexts: &[Rows<usize>], passed: &mut Passed) -> Result<bool, WantOfMemory>
    ensures { IfOk result (WentOn nat_eq (next_at nexts.now) passed.old 0 passed.new) }
{
    let mut at = 0;
    while at < passed.len() {
        if passed.len() > MOST_INSTANCES {
            return Ok(false);
        }
        let place = passed.get(at);
        passed.put_all(next_at(nexts, place))?;
        at += 1;
    }
    Ok(true)
}

// The places to which one leads. They are among those of the module's instances, so they aren't too
// many.
fn led_to(alloc: Global, nexts: &[Rows<usize>], from: usize) -> Result<Passed, WantOfMemory>
    requires { IsWithin nat_eq (next_at nexts.now) from }
    ensures { IfOk result (LedTo nat_eq (next_at nexts.now) from) }
{
    let mut passed = Passed::new(alloc);
    passed.put_all(next_at(nexts, from))?;
    let few = pass(nexts, &mut passed)?;
    if !few {
        unreachable!();
    }
    Ok(passed)
}

fn row_in(alloc: Global, passed: &Passed, places: &[usize]) -> Result<Rows<bool>, WantOfMemory>
    ensures { IfOk result (λ row. row ≡ map (is_in nat_eq passed.now) places.now) }
{
    let mut row = Rows::new(alloc);
    for place in places {
        row.push(passed.has(*place))?;
    }
    Ok(row)
}

fn row_of(
    alloc: Global,
    nexts: &[Rows<usize>],
    from: usize,
    places: &[usize],
) -> Result<Rows<bool>, WantOfMemory>
    requires { IsWithin nat_eq (next_at nexts.now) from }
    ensures { IfOk result (λ row. row ≡ map (leads_at nexts.now from) places.now) }
{
    let passed = led_to(alloc, nexts, from)?;
    let row = row_in(alloc, &passed, places)?;
    Ok(row)
}

fn reach_at(
    alloc: Global,
    nexts: &[Rows<usize>],
    places: &[usize],
) -> Result<Rows<Rows<bool>>, WantOfMemory>
    requires within { All (IsWithin nat_eq (next_at nexts.now)) places.now }
    ensures { IfOk result (λ rows. rows ≡ reach_at nexts.now places.now places.now) }
{
    let mut rows = Rows::new(alloc);
    for place in places {
        rows.push(row_of(alloc, nexts, *place, places)?)?;
    }
    Ok(rows)
}

/// Row y says of each x whether y leads to it.
#[tactic(auto, unfolding(crate::specs::Choices::reach))]
pub fn reach(
    alloc: Global,
    tables: &Tables<'_>,
    found: &Found,
    callers: &[WithCalls],
) -> Result<Rows<Rows<bool>>, WantOfMemory>
    requires whole { IsWhole tables.now found.now }
    requires found { AreFound found.now callers.now }
    ensures { IfOk result (λ rows. rows ≡ reach tables.now callers.now) }
{
    if callers.is_empty() {
        return Ok(Rows::new(alloc));
    }
    let nexts = nexts_in(alloc, tables, found)?;
    let places = caller_places(alloc, found, callers)?;
    let rows = reach_at(alloc, nexts.items(), places.items())?;
    Ok(rows)
}
