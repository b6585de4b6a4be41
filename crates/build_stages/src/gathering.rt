//! The answers to the asks of a stage.
ghost use Rattle.std.specs.Prelude.{◌≡◌, length};
ghost use Rattle.std.specs.Option.{option_copied};
ghost use Rattle.build_stages.specs.Stages.{fault_in};
ghost use Rattle.build_stages.specs.Known.{shown, gathered_at};
ghost use Rattle.build_stages.specs.Gives.{Gives, Judges};

use crate::given::Given;
use crate::known::Known;
use crate::staged::StepTypes;
use crate::stop::Stop;
use build_base::{Fault, Permit, Same};
use std::alloc::Global;
use step_engine::{Answer, Ask, Outcome};

// The fault of a part.
fn fault_in<O>(answer: &Answer<O>) -> Option<&Fault>
    ensures { option_copied result ≡ fault_in answer.now }
{
    match answer {
        Answer::Part(Outcome::Bad(fault)) => Some(fault.value()),
        _ => None,
    }
}

// Stops at the first answer that doesn't fit, or that is the fault of a part.
fn judge<S: StepTypes>(
    alloc: Global,
    rules: &S,
    asks: &[Ask<S::Key>],
    answers: &[&Answer<S::Out>],
) -> Result<(), Stop<S::Key>>
    requires { length answers.now ≡ length asks.now }
    ensures { Judges S.staged.fits asks.now (shown answers.now) result }
{
    for (i, ask) in asks.iter().enumerate() {
        let answer = answers[i];
        if !rules.fits(ask, answer) {
            return Err(Stop::ImpossibleAnswer);
        }
        let Some(fault) = fault_in(answer) else {
            continue;
        };
        return Err(Stop::Fails(fault.copy(alloc)?));
    }
    Ok(())
}

/// The answers to the asks of a stage, by their asks, and the permit again. Those that aren't
/// known are wanted, each once; of the known ones the first that no world gives, or that is the
/// fault of a part, stops the step.
pub fn gather<'a, S: StepTypes>(
    alloc: Global,
    rules: &S,
    known: &'a Known<'_, S::Key, S::Out>,
    asks: &'a [Ask<S::Key>],
    permit: Permit,
) -> Result<(Given<'a, S::Key, S::Out>, Permit), Stop<S::Key>>
    ensures { Gives (λ x. x.0) result (gathered_at S.Key.cmp S.staged.fits known.now asks.now) }
{
    match known.all(alloc, asks)? {
        None => Err(Stop::Wants(known.missing(alloc, asks)?, permit)),
        Some(answers) => {
            judge(alloc, rules, asks, answers.as_slice())?;
            Ok((Given::of(asks, answers), permit))
        }
    }
}
