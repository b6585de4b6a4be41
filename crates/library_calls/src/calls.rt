//! What a module's instances have called.
ghost use Rattle.std.specs.Prelude.{◌≡◌, ◌++◌, reverse, IfOk, OnOk};
ghost use Rattle.std.specs.List.{flat_map};
ghost use Rattle.std.specs.Option.{option_copied};
ghost use Rattle.build_base.specs.Answer.{Answers, Checks};
ghost use Rattle.library_calls.specs.Calls.{caller_fault, looped, constructors_at, destructors_at, choice_in, choice_by};

use crate::caller::WithCalls;
use crate::order::{call_order, first_looped, places};
use build_base::fault_codes::CONSTRUCTOR_LOOP;
use build_base::{Path, Refusal, Rows, Same, WantOfMemory, refuse};
use doc_types::choice::{Call, Choice};
use std::alloc::Global;

fn push_calls(alloc: Global, calls: &[Call], out: &mut Vec<Call>) -> Result<(), WantOfMemory>
    ensures { OnOk result (out.new.items ≡ out.old.items ++ calls.now) }
{
    let mut left = calls;
    while let [call, rest @ ..] = left {
        let call = call.copy(alloc)?;
        if out.push(call).is_err() {
            return Err(WantOfMemory);
        }
        left = rest;
    }
    Ok(())
}

fn constructors_at(callers: &[WithCalls], place: usize) -> &[Call]
    ensures { result.now ≡ constructors_at callers.now place }
{
    match callers.get(place) {
        Some(caller) => caller.constructors.items(),
        None => &[],
    }
}

fn destructors_at(callers: &[WithCalls], place: usize) -> &[Call]
    ensures { result.now ≡ destructors_at callers.now place }
{
    match callers.get(place) {
        Some(caller) => caller.destructors.items(),
        None => &[],
    }
}

fn constructors(
    alloc: Global,
    callers: &[WithCalls],
    order: &[usize],
) -> Result<Vec<Call>, WantOfMemory>
    ensures { IfOk result (λ calls. calls.items
        ≡ flat_map (constructors_at callers.now) order.now) }
{
    let mut calls = Vec::new(alloc);
    let mut left = order;
    while let [place, rest @ ..] = left {
        push_calls(alloc, constructors_at(callers, *place), &mut calls)?;
        left = rest;
    }
    Ok(calls)
}

fn destructors(
    alloc: Global,
    callers: &[WithCalls],
    order: &[usize],
) -> Result<Vec<Call>, WantOfMemory>
    ensures { IfOk result (λ calls. calls.items ≡ flat_map (destructors_at callers.now) order.now) }
{
    let mut calls = Vec::new(alloc);
    let mut left = order;
    while let [place, rest @ ..] = left {
        push_calls(alloc, destructors_at(callers, *place), &mut calls)?;
        left = rest;
    }
    Ok(calls)
}

fn reversed_destructors(
    alloc: Global,
    callers: &[WithCalls],
    order: &[usize],
) -> Result<Vec<Call>, WantOfMemory>
    ensures { IfOk result (λ calls. calls.items
        ≡ reverse (flat_map (destructors_at callers.now) order.now)) }
{
    let mut calls = destructors(alloc, callers, order)?;
    calls.reverse();
    Ok(calls)
}

#[tactic(auto, unfolding(crate::specs::Calls::choice_in))]
fn choice_in(
    alloc: Global,
    found: Rows<Path>,
    callers: &[WithCalls],
    order: &[usize],
) -> Result<Choice, WantOfMemory>
    ensures { IfOk result (λ c. c ≡ choice_in found callers.now order.now) }
{
    let constructors = constructors(alloc, callers, order)?;
    let destructors = reversed_destructors(alloc, callers, order)?;
    Ok(Choice {
        library: false,
        instances: found,
        constructors: Rows::from_vec(constructors),
        destructors: Rows::from_vec(destructors),
    })
}

fn check_caller(alloc: Global, caller: Option<&WithCalls>) -> Result<(), Refusal>
    ensures { Checks result (caller_fault (option_copied caller.entry)) }
{
    match caller {
        None => Ok(()),
        Some(caller) => Err(refuse(alloc, CONSTRUCTOR_LOOP, &caller.at, caller.inf.bytes())),
    }
}

fn check_looped(alloc: Global, callers: &[WithCalls], place: Option<usize>) -> Result<(), Refusal>
    ensures { Checks result (looped callers.now place) }
{
    match place {
        None => Ok(()),
        Some(place) => check_caller(alloc, callers.get(place)),
    }
}

/// The choice of these instances, of which these have something called; row y says of each x whether
/// y leads to it. Or CONSTRUCTOR_LOOP at the first that must come before one that must come before
/// it.
#[tactic(auto, unfolding(crate::specs::Calls::loop_fault, crate::specs::Calls::choice_by))]
pub fn choice_by(
    alloc: Global,
    found: Rows<Path>,
    callers: &[WithCalls],
    rows: &[Rows<bool>],
) -> Result<Choice, Refusal>
    ensures { Answers result (choice_by found callers.now rows.now) }
{
    let all = places(alloc, callers.len())?;
    check_looped(alloc, callers, first_looped(rows, all.items()))?;
    let order = call_order(alloc, rows, all.items())?;
    Ok(choice_in(alloc, found, callers, order.items())?)
}
