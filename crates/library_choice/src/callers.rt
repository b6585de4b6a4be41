//! The instances that have something called.
ghost use Rattle.std.specs.Prelude.{◌≡◌, ◌++◌, ◌∷◌, [], IfOk, OnOk, map};
ghost use Rattle.std.specs.Option.{option_copied};
ghost use Rattle.library_choice.specs.Choices.{has_call, first_place, call_of, caller_of, caller_in, callers};

use crate::tables::Tables;
use build_base::together::two;
use build_base::{Path, Place, Rows, WantOfMemory};
use doc_types::choice::Call;
use doc_types::module::{InfDoc, Named};
use library_calls::WithCalls;
use std::alloc::Global;

fn has_call(inf: &InfDoc) -> bool
    ensures { result ≡ has_call inf.now }
{
    !inf.constructors.items().is_empty() || !inf.destructors.items().is_empty()
}

fn first_place(inf: &InfDoc) -> &Place
    ensures { result.now ≡ first_place inf.now.at (inf.now.constructors ++ inf.now.destructors) }
{
    if let Some(call) = inf.constructors.items().first() {
        return &call.at;
    }
    match inf.destructors.items().first() {
        Some(call) => &call.at,
        None => &inf.at,
    }
}

fn push_call(
    alloc: Global,
    inf: &Path,
    named: &Named,
    calls: &mut Rows<Call>,
) -> Result<(), WantOfMemory>
    ensures { OnOk result (calls.new ≡ calls.old ++ call_of inf.now named.now ∷ []) }
{
    let (inf, name) = two(inf, &named.name, alloc)?;
    calls.push(Call { inf, name })
}

fn push_calls(
    alloc: Global,
    inf: &Path,
    names: &[Named],
    calls: &mut Rows<Call>,
) -> Result<(), WantOfMemory>
    ensures { OnOk result (calls.new ≡ calls.old ++ map (call_of inf.now) names.now) }
{
    let mut left = names;
    while let [named, rest @ ..] = left {
        push_call(alloc, inf, named, calls)?;
        left = rest;
    }
    Ok(())
}

// Adds the calls of constructors to one list, and those of destructors to another.
fn push_lists(
    alloc: Global,
    inf: &InfDoc,
    constructors: &mut Rows<Call>,
    destructors: &mut Rows<Call>,
) -> Result<(), WantOfMemory>
    ensures constructors { OnOk result (constructors.new
        ≡ constructors.old ++ map (call_of inf.now.at.path) inf.now.constructors) }
    ensures destructors { OnOk result (destructors.new
        ≡ destructors.old ++ map (call_of inf.now.at.path) inf.now.destructors) }
{
    let path = &inf.at.path;
    push_calls(alloc, path, inf.constructors.items(), constructors)?;
    push_calls(alloc, path, inf.destructors.items(), destructors)?;
    Ok(())
}

#[tactic(auto, unfolding(crate::specs::Choices::caller_of))]
fn caller_of(alloc: Global, inf: &InfDoc) -> Result<WithCalls, WantOfMemory>
    ensures { IfOk result (λ caller. caller ≡ caller_of inf.now) }
{
    let (mut constructors, mut destructors) = (Rows::new(alloc), Rows::new(alloc));
    push_lists(alloc, inf, &mut constructors, &mut destructors)?;
    let (path, at) = two(&inf.at.path, first_place(inf), alloc)?;
    Ok(WithCalls {
        inf: path,
        at,
        constructors,
        destructors,
    })
}

fn caller_in(alloc: Global, inf: Option<&InfDoc>) -> Result<Option<WithCalls>, WantOfMemory>
    ensures { IfOk result (λ caller. caller ≡ caller_in (option_copied inf.entry)) }
{
    let Some(inf) = inf else {
        return Ok(None);
    };
    if !has_call(inf) {
        return Ok(None);
    }
    Ok(Some(caller_of(alloc, inf)?))
}

fn push_caller(
    alloc: Global,
    tables: &Tables<'_>,
    path: &Path,
    rows: &mut Rows<WithCalls>,
) -> Result<(), WantOfMemory>
    ensures { OnOk result (rows.new ≡ rows.old ++ callers tables.now.infs (path.now ∷ [])) }
{
    let inf = tables.inf_at(path);
    match caller_in(alloc, inf)? {
        Some(caller) => rows.push(caller),
        None => Ok(()),
    }
}

/// The instances that have something called, in first-found order.
pub fn callers(
    alloc: Global,
    tables: &Tables<'_>,
    found: &[Path],
) -> Result<Rows<WithCalls>, WantOfMemory>
    ensures { IfOk result (λ rows. rows ≡ callers tables.now.infs found.now) }
{
    let mut rows = Rows::new(alloc);
    let mut left = found;
    while let [path, rest @ ..] = left {
        push_caller(alloc, tables, path, &mut rows)?;
        left = rest;
    }
    Ok(rows)
}
