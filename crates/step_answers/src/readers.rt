//! What the steps that were asked gave, by the answers of a stage.
ghost use Rattle.step_answers.specs.Readers.{or_impossible, platform_of_out, platform_in, flash_of_out, flash_in, choice_of_out, choice_in, inf_of_out, inf_in, values_of_out, values_in};
ghost use Rattle.std.specs.Prelude.{◌≡◌, IfOk, nat_eq, true};
ghost use Rattle.step_pack.specs.declared.out.Out.TheVariants as out;
ghost use Rattle.build_stages.specs.Gives.{GivesIn};
ghost use Rattle.std.specs.Cmp.Lexicographic.{pointwise};
ghost use Rattle.step_pack.specs.declared.key.Key.TheVariants as key;

use build_base::{Path, Same};
use build_stages::{Given, Stop};
use doc_types::choice::{Choice, Module};
use doc_types::flash::FlashDoc;
use doc_types::module::InfDoc;
use doc_types::platform::PlatformDoc;
use doc_types::values::Values;
use shared_value::Shared;
use std::alloc::Global;
use step_pack::{Key, Out};

fn platform_of_out(out: &Out) -> Result<&Shared<PlatformDoc>, Stop<Key>>
    ensures { GivesIn (λ document. document.now) result (platform_of_out out.now) }
{
    match out {
        Out::Platform(document) => Ok(document),
        _ => Err(Stop::ImpossibleAnswer),
    }
}

/// The platform's description among answers, as it is shared.
pub fn shared_platform<'a>(
    given: &Given<'a, Key, Out>,
) -> Result<&'a Shared<PlatformDoc>, Stop<Key>>
    ensures { GivesIn (λ document. document.now) result (platform_in given.now) }
{
    platform_of_out(given.part(&Key::Platform)?)
}

/// The platform's description among answers.
pub fn platform_in<'a>(given: &Given<'a, Key, Out>) -> Result<&'a PlatformDoc, Stop<Key>>
    ensures { GivesIn (λ document. document.now) result (platform_in given.now) }
{
    Ok(shared_platform(given)?.value())
}

fn flash_of_out(out: &Out) -> Result<&Shared<FlashDoc>, Stop<Key>>
    ensures { GivesIn (λ document. document.now) result (flash_of_out out.now) }
{
    match out {
        Out::Flash(document) => Ok(document),
        _ => Err(Stop::ImpossibleAnswer),
    }
}

/// The flash description among answers, as it is shared.
pub fn shared_flash<'a>(given: &Given<'a, Key, Out>) -> Result<&'a Shared<FlashDoc>, Stop<Key>>
    ensures { GivesIn (λ document. document.now) result (flash_in given.now) }
{
    flash_of_out(given.part(&Key::Flash)?)
}

/// The flash description among answers.
pub fn flash_in<'a>(given: &Given<'a, Key, Out>) -> Result<&'a FlashDoc, Stop<Key>>
    ensures { GivesIn (λ document. document.now) result (flash_in given.now) }
{
    Ok(shared_flash(given)?.value())
}

fn choice_of_out(out: &Out) -> Result<&Choice, Stop<Key>>
    ensures { GivesIn (λ choice. choice.now) result (choice_of_out out.now) }
{
    match out {
        Out::Choice(choice) => Ok(choice),
        _ => Err(Stop::ImpossibleAnswer),
    }
}

/// The libraries of a module, by the answers of a stage.
pub fn choice_in<'a>(
    alloc: Global,
    given: &Given<'a, Key, Out>,
    module: &Module,
) -> Result<&'a Choice, Stop<Key>>
    ensures { GivesIn (λ choice. choice.now) result (choice_in given.now «module».now) }
{
    let key = Key::Choice(module.copy(alloc)?);
    choice_of_out(given.part(&key)?)
}

fn inf_of_out<'a>(path: &Path, out: &'a Out) -> Result<&'a Shared<InfDoc>, Stop<Key>>
    ensures value { GivesIn (λ inf. inf.now) result (inf_of_out path.now out.now) }
    ensures named { IfOk result (λ inf. pointwise nat_eq inf.now.at.path path.now ≡ true) }
{
    match out {
        Out::Inf(inf) => {
            if inf.value().at.path == *path {
                return Ok(inf);
            }
            Err(Stop::ImpossibleAnswer)
        }
        _ => Err(Stop::ImpossibleAnswer),
    }
}

#[tactic(auto, unfolding(crate::specs::Readers::inf_in))]
fn shared_inf<'a>(
    alloc: Global,
    given: &Given<'a, Key, Out>,
    path: &Path,
) -> Result<&'a Shared<InfDoc>, Stop<Key>>
    ensures value { GivesIn (λ inf. inf.now) result (inf_in given.now path.now) }
    ensures named { IfOk result (λ inf. pointwise nat_eq inf.now.at.path path.now ≡ true) }
{
    let key = Key::Inf(path.copy(alloc)?);
    inf_of_out(path, given.part(&key)?)
}

/// The description of a path, by the answers of a stage.
pub fn inf_in(
    alloc: Global,
    given: &Given<'_, Key, Out>,
    path: &Path,
) -> Result<Shared<InfDoc>, Stop<Key>>
    ensures value { GivesIn (λ inf. inf) result (inf_in given.now path.now) }
    ensures named { IfOk result (λ inf. pointwise nat_eq inf.at.path path.now ≡ true) }
{
    let inf = shared_inf(alloc, given, path)?;
    Ok(inf.copy(alloc)?)
}

fn values_of_out(out: &Out) -> Result<&Shared<Values>, Stop<Key>>
    ensures { GivesIn (λ values. values.now) result (values_of_out out.now) }
{
    match out {
        Out::Values(values) => Ok(values),
        _ => Err(Stop::ImpossibleAnswer),
    }
}

/// The values that the step of a key gave, by the answers of a stage.
pub fn values_in<'a>(
    given: &Given<'a, Key, Out>,
    key: &Key,
) -> Result<&'a Shared<Values>, Stop<Key>>
    ensures { GivesIn (λ values. values.now) result (values_in given.now key.now) }
{
    values_of_out(given.part(key)?)
}

/// The values of a module, by the answers of a stage.
pub fn module_values<'a>(
    alloc: Global,
    given: &Given<'a, Key, Out>,
    module: &Module,
) -> Result<&'a Shared<Values>, Stop<Key>>
    ensures { GivesIn (λ values. values.now) result (values_in given.now (key.Values «module».now)) }
{
    let key = Key::Values(module.copy(alloc)?);
    values_of_out(given.part(&key)?)
}

/// What was read from a text. In a world each text of a job has a reading.
pub fn or_impossible<T: Drop>(read: Option<T>) -> Result<T, Stop<Key>>
    ensures { GivesIn (λ x. x) result (or_impossible read) }
{
    match read {
        Some(x) => Ok(x),
        None => Err(Stop::ImpossibleAnswer),
    }
}
