//! The texts of a module.
ghost use Rattle.std.specs.Prelude.{◌≡◌, IfOk};
ghost use Rattle.build_base.specs.Answer.{Answers};
ghost use Rattle.build_stages.specs.Gives.{GivesIn};
ghost use Rattle.build_texts.specs.Code.{code_texts};
ghost use Rattle.text_steps.specs.Code.{own_guid, file_guid, code_ask, code_given};

use build_base::together::two;
use build_base::{Guid, Permit, Refusal, WantOfMemory};
use build_stages::Stop;
use build_texts::{CodeAsk, code_texts};
use doc_types::choice::Choice;
use doc_types::module::InfDoc;
use doc_types::parts::ModuleParts;
use doc_types::platform::PlatformDoc;
use doc_types::texts::Texts;
use doc_types::values::Values;
use shared_value::Shared;
use std::alloc::Global;
use step_answers::settings::stated_guid;
use step_pack::Key;

fn own_guid(infs: &[Shared<InfDoc>]) -> Result<Guid, Stop<Key>>
    ensures { GivesIn (λ guid. guid) result (own_guid infs.now) }
{
    match infs {
        [] => Err(Stop::ImpossibleAnswer),
        [inf, ..] => Ok(inf.value().file_guid),
    }
}

// The GUID of the component, else that of the INF file.
#[tactic(auto, unfolding(crate::specs::Code::file_guid))]
fn file_guid(platform: &PlatformDoc, parts: &ModuleParts) -> Result<Guid, Stop<Key>>
    ensures { GivesIn (λ guid. guid) result (file_guid platform.now parts.now) }
{
    match stated_guid(platform, &parts.module) {
        Some(guid) => Ok(guid),
        None => own_guid(parts.infs.items()),
    }
}

fn code_ask(
    alloc: Global,
    file_guid: Guid,
    parts: ModuleParts,
    choice: &Choice,
    values: &Shared<Values>,
) -> Result<CodeAsk, WantOfMemory>
    ensures { IfOk result (λ ask. ask ≡ code_ask file_guid parts choice.now values.now) }
{
    let (choice, values) = two(choice, values, alloc)?;
    Ok(CodeAsk {
        file_guid,
        parts,
        choice,
        values,
    })
}

// The texts of a module whose file has this GUID.
fn code_by(
    alloc: Global,
    permit: Permit,
    file_guid: Guid,
    choice: &Choice,
    values: &Shared<Values>,
    parts: ModuleParts,
) -> Result<Texts, Refusal>
    ensures { Answers result (code_texts (code_ask file_guid parts choice.now values.now)) }
{
    let ask = code_ask(alloc, file_guid, parts, choice, values)?;
    code_texts(alloc, permit, &ask)
}

/// AutoGen.c and AutoGen.h of a module, nothing for a library.
#[tactic(auto, unfolding(crate::specs::Code::code_given))]
pub fn code_given(
    alloc: Global,
    permit: Permit,
    platform: &PlatformDoc,
    choice: &Choice,
    values: &Shared<Values>,
    parts: ModuleParts,
) -> Result<Option<Texts>, Stop<Key>>
    ensures { GivesIn (λ texts. texts) result
        (code_given platform.now choice.now values.now parts) }
{
    if choice.library {
        return Ok(None);
    }
    let guid = file_guid(platform, &parts)?;
    Ok(Some(code_by(alloc, permit, guid, choice, values, parts)?))
}
