//! The texts of a module.
ghost use Rattle.build_base.specs.Answer.{Answers};
ghost use Rattle.build_texts.specs.Code.{code_texts};

use crate::asks::CodeAsk;
use crate::header::header_text;
use crate::names::module_guids;
use crate::source::source_text;
use build_base::{Permit, Refusal};
use doc_types::texts::Texts;
use std::alloc::Global;

/// AutoGen.c and AutoGen.h of a module; or 511 for the first name of a GUID, by the INF files in
/// order and then by their lines, that no package of its INF file declares for the module's
/// architecture.
#[tactic(auto, unfolding(crate::specs::Code::code_texts))]
pub fn code_texts(alloc: Global, permit: Permit, ask: &CodeAsk) -> Result<Texts, Refusal>
    ensures { Answers result (code_texts ask.now) }
{
    let _spent = permit;
    let named = module_guids(alloc, &ask.parts)?;
    let c = source_text(alloc, ask, named.as_slice())?;
    let h = header_text(alloc, ask)?;
    Ok(Texts { c, h })
}
