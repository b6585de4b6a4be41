//! The descriptions of some paths, where a step's talk has them all.
ghost use Rattle.std.specs.Prelude.{◌≡◌, IfOk, IfSome, Some, Ok, ◌++◌, List};
ghost use Rattle.std.specs.Option.{option_map};
ghost use Rattle.build_stages.specs.Known.{known_at, advance_at};
ghost use Rattle.doc_types.specs.declared.module.InfDoc.{InfDoc as InfModel};
ghost use Rattle.library_steps.specs.HeldInfs.{IsPushed, held_doc, held_answer, held_inf, held_infs};
ghost use Rattle.library_steps.specs.ModuleTrees.{round_stages};
ghost use Rattle.step_answers.specs.Fits.{fits};
ghost use Rattle.step_pack.specs.Keys.{key_cmp};

use build_base::{Path, Rows, Same, WantOfMemory};
use build_stages::Known;
use doc_types::module::InfDoc;
use shared_value::Shared;
use std::alloc::Global;
use step_engine::{Answer, Ask, Outcome};
use step_pack::{Key, Out};

fn held_doc<'a>(path: &Path, out: &'a Out) -> Option<&'a Shared<InfDoc>>
    ensures { option_map (λ inf. inf.now) result ≡ held_doc path.now out.now }
{
    match out {
        Out::Inf(inf) => {
            if inf.value().at.path == *path {
                Some(inf)
            } else {
                None
            }
        }
        _ => None,
    }
}

fn held_answer<'a>(path: &Path, answer: &'a Answer<Out>) -> Option<&'a Shared<InfDoc>>
    ensures { option_map (λ inf. inf.now) result ≡ held_answer path.now answer.now }
{
    match answer {
        Answer::Part(Outcome::Good(out)) => held_doc(path, out.value()),
        _ => None,
    }
}

fn held_inf<'a>(
    alloc: Global,
    known: &Known<'a, Key, Out>,
    path: &Path,
) -> Result<Option<&'a Shared<InfDoc>>, WantOfMemory>
    ensures { IfOk result (λ held. option_map (λ inf. inf.now) held
        ≡ held_inf (known_at key_cmp known.now) path.now) }
{
    let ask = Ask::Part(Key::Inf(path.copy(alloc)?));
    match known.get(&ask) {
        Some(answer) => Ok(held_answer(path, answer)),
        None => Ok(None),
    }
}

// Adds the description of a path. False where the talk doesn't have it.
fn push_held(
    alloc: Global,
    known: &Known<'_, Key, Out>,
    path: &Path,
    infs: &mut Rows<Shared<InfDoc>>,
) -> Result<bool, WantOfMemory>
    ensures { IfOk result (λ held. IsPushed held
        (held_inf (known_at key_cmp known.now) path.now) infs.old infs.new) }
{
    match held_inf(alloc, known, path)? {
        Some(inf) => {
            infs.push(inf.copy(alloc)?)?;
            Ok(true)
        }
        None => Ok(false),
    }
}

// The descriptions of some paths, in their order.
fn all_held(
    alloc: Global,
    known: &Known<'_, Key, Out>,
    paths: &[Path],
) -> Result<Option<Rows<Shared<InfDoc>>>, WantOfMemory>
    ensures { IfOk result (λ infs. infs ≡ held_infs (known_at key_cmp known.now) paths.now) }
{
    let mut infs = Rows::new(alloc);
    let mut left = paths;
    while let [path, rest @ ..] = left {
        if !push_held(alloc, known, path, &mut infs)? {
            return Ok(None);
        }
        left = rest;
    }
    Ok(Some(infs))
}

/// The descriptions of some paths, in their order, where the talk has them all. A round that asks
/// for them comes to the same.
#[tactic(auto, using(crate::proofs::HeldInfLemmas::held_round))]
pub(crate) fn held_infs(
    alloc: Global,
    known: &Known<'_, Key, Out>,
    paths: &[Path],
) -> Result<Option<Rows<Shared<InfDoc>>>, WantOfMemory>
    ensures { IfOk result (λ infs. IfSome infs (λ more. (old : List InfModel)
        → advance_at key_cmp fits known.now (round_stages old paths.now) ≡ Ok (old ++ more))) }
{
    let infs = all_held(alloc, known, paths)?;
    Ok(infs)
}
