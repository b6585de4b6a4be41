//! The turns of rules that are written as stages.
ghost use Rattle.std.specs.Prelude.{◌≡◌, IfOk};
ghost use Rattle.build_stages.specs.Stages.{impossible_answer, meaning_of};
ghost use Rattle.step_engine.specs.Turns.{IsTurn};
ghost use Rattle.step_engine.specs.declared.talk.Outcome.TheVariants.{Good, Bad};

use crate::known::Known;
use crate::staged::StagedRules;
use crate::stop::Stop;
use build_base::{Fault, Path, Permit, Place, Text, WantOfMemory};
use shared_value::Shared;
use std::alloc::Global;
use step_engine::{Outcome, Talk, Turn};

// The outcome of a step that gives something.
fn good<O: Drop>(alloc: Global, out: O) -> Result<Outcome<O>, WantOfMemory>
    ensures { IfOk result (λ outcome. outcome ≡ Good out) }
{
    Ok(Outcome::Good(Shared::new(alloc, out)?))
}

// The outcome of a step that ends with a fault.
fn bad<O>(alloc: Global, fault: Fault) -> Result<Outcome<O>, WantOfMemory>
    ensures { IfOk result (λ outcome. outcome ≡ Bad fault) }
{
    Ok(Outcome::Bad(Shared::new(alloc, fault)?))
}

// The outcome after an answer that no world gives: a fault of code 0, which no fault of a build
// has.
fn impossible_answer<O>(alloc: Global) -> Result<Outcome<O>, WantOfMemory>
    ensures { IfOk result (λ outcome. outcome ≡ Bad impossible_answer) }
{
    match Path::new(alloc, b"talk") {
        Ok(path) => {
            let fault = Fault {
                code: 0,
                place: Place { path, line: 0 },
                detail: Text::of(alloc, b"")?,
            };
            bad(alloc, fault)
        }
        Err(_) => Err(WantOfMemory),
    }
}

/// The next turn of a step after a talk, for `Rules::turn`.
pub fn turn_by<S: StagedRules>(
    alloc: Global,
    rules: &S,
    key: &S::Key,
    talk: &Talk<S::Key, S::Out>,
    permit: Permit,
) -> Result<Turn<S::Key, S::Out>, WantOfMemory>
    ensures { IfOk result (IsTurn (meaning_of S.Key.cmp S.staged) key.now talk.now.batches) }
{
    let known = Known::of(alloc, talk)?;
    match rules.outcome(alloc, key, &known, permit) {
        Ok(out) => Ok(Turn::Done(good(alloc, out)?)),
        Err(Stop::Wants(asks, permit)) => Ok(Turn::Ask(asks, permit)),
        Err(Stop::Fails(fault)) => Ok(Turn::Done(bad(alloc, fault)?)),
        Err(Stop::ImpossibleAnswer) => Ok(Turn::Done(impossible_answer(alloc)?)),
        Err(Stop::WantOfMemory) => Err(WantOfMemory),
    }
}
