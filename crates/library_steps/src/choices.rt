//! What is known of a module's libraries, round by round.
ghost use Rattle.std.specs.Prelude.{◌≡◌, true, IfOk};
ghost use Rattle.build_stages.specs.Gives.{GivesIn};
ghost use Rattle.library_choice.specs.Closure.{is_known};
ghost use Rattle.library_steps.specs.Choices.{own_inf};

use build_base::Rows;
use build_stages::{Given, Stop};
use doc_types::choice::Module;
use doc_types::module::InfDoc;
use shared_value::Shared;
use std::alloc::Global;
use step_answers::readers::inf_in;
use step_pack::{Key, Out};

/// The description of a module itself, by the answers of a stage.
#[tactic(auto, using(crate::proofs::KnownLemmas::first_known))]
pub fn own_inf(
    alloc: Global,
    given: &Given<'_, Key, Out>,
    module: &Module,
) -> Result<Rows<Shared<InfDoc>>, Stop<Key>>
    ensures value { GivesIn (λ infs. infs) result (own_inf given.now «module».now.inf) }
    ensures known { IfOk result (λ infs. is_known infs «module».now.inf ≡ true) }
{
    let inf = inf_in(alloc, given, &module.inf)?;
    let mut infs = Rows::new(alloc);
    infs.push(inf)?;
    Ok(infs)
}
