//! The PCD that a line asks for.
ghost use Rattle.std.specs.Prelude.{◌≡◌, IfOk, option_map};
ghost use Rattle.build_base.specs.Answer.{Answers, Checks};
ghost use Rattle.doc_types.specs.Pcds.{pcd_name_of};
ghost use Rattle.doc_reading.specs.Gathering.{unless_faulty};
ghost use Rattle.meta_lexer.specs.Parts.{first_text};
ghost use Rattle.inf_docs.specs.Pcds.{is_pcd_form, pcd_fault, asked_faults, pcd_faults, default_of, used_as, asked_pcd, pcd_used};

use build_base::fault_codes::BAD_PCD_NAME;
use build_base::{Refusal, Same, Taken, Text, WantOfMemory, refuse};
use doc_reading::least_check::least_of_two;
use doc_reading::value_fields::{open_quote, undefined_macros};
use doc_reading::values::require;
use doc_types::arch::Arch;
use doc_types::module::UsedPcd;
use doc_types::pcd::{Asked, PcdName, pcd_name_of};
use meta_lexer::parts::{field_texts, first_text};
use std::alloc::Global;

fn is_pcd_form(fields: &[Text]) -> bool
    ensures { result ≡ is_pcd_form fields.now }
{
    match fields {
        [_] => true,
        [_, default] => !default.bytes().is_empty(),
        _ => false,
    }
}

fn check_pcd(
    alloc: Global,
    line: &Taken,
    fields: &[Text],
    pcd: &Option<PcdName>,
) -> Result<(), Refusal>
    ensures { pcd.now ≡ pcd_name_of (first_text fields.now) →
        Checks result (pcd_fault line.now fields.now) }
{
    let name = first_text(fields);
    if !is_pcd_form(fields) {
        return Err(refuse(alloc, BAD_PCD_NAME, &line.at, name));
    }
    require(alloc, pcd, BAD_PCD_NAME, &line.at, name)
}

fn default_of(alloc: Global, fields: &[Text]) -> Result<Option<Text>, WantOfMemory>
    ensures { IfOk result (λ default. default ≡ default_of fields.now) }
{
    match fields {
        [_, default, ..] => Ok(Some(default.copy(alloc)?)),
        _ => Ok(None),
    }
}

fn used_as(
    alloc: Global,
    line: &Taken,
    arch: Arch,
    asked: Asked,
    fields: &[Text],
    pcd: Option<PcdName>,
) -> Result<Option<UsedPcd>, WantOfMemory>
    ensures { IfOk result (λ used. used ≡ option_map (used_as line.now arch asked fields.now) pcd) }
{
    match pcd {
        Some(pcd) => Ok(Some(UsedPcd {
            at: line.at.copy(alloc)?,
            arch,
            asked,
            pcd,
            default: default_of(alloc, fields)?,
        })),
        None => Ok(None),
    }
}

fn asked_pcd(
    alloc: Global,
    line: &Taken,
    arch: Arch,
    asked: Asked,
    fields: &[Text],
) -> Result<Option<UsedPcd>, Refusal>
    ensures { Answers result
        (unless_faulty (asked_faults line.now fields.now)
        (asked_pcd line.now arch asked fields.now)) }
{
    let pcd = pcd_name_of(alloc, first_text(fields))?;
    least_of_two(
        undefined_macros(alloc, &line.at, fields),
        check_pcd(alloc, line, fields, &pcd),
    )?;
    let used = used_as(alloc, line, arch, asked, fields, pcd)?;
    Ok(used)
}

/// The PCD that a line asks for.
#[tactic(auto, unfolding(crate::specs::Pcds::pcd_faults, crate::specs::Pcds::pcd_used))]
pub fn pcd_line(
    alloc: Global,
    line: &Taken,
    arch: Arch,
    asked: Asked,
) -> Result<Option<UsedPcd>, Refusal>
    ensures { Answers result (unless_faulty (pcd_faults line.now) (pcd_used line.now arch asked)) }
{
    open_quote(alloc, &line.at, line.text.bytes())?;
    let fields = field_texts(alloc, line.text.bytes())?;
    asked_pcd(alloc, line, arch, asked, fields.items())
}
