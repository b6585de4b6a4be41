//! The lines of PCDs.
ghost use Rattle.std.specs.Prelude.{◌≡◌, IfOk};
ghost use Rattle.std.specs.Option.{option_map};
ghost use Rattle.build_base.specs.Answer.{Answers, Checks};
ghost use Rattle.doc_reading.specs.Gathering.{unless_faulty};
ghost use Rattle.dsc_lines.specs.PcdLines.{number_fault, form_fault, fields_faults, made_pcd, fields_pcd, pcd_faults, pcd_of};

use crate::pcd_form::{is_form, number_field, small_number};
use crate::pcd_store::{datum_in, max_in, store_in, value_in};
use crate::section::StoreKind;
use build_base::fault_codes::{BAD_NUMBER, DSC_BAD_PCD_LINE};
use build_base::{Refusal, Same, Taken, Text, WantOfMemory, refuse};
use doc_reading::least_check::least_of_three;
use doc_reading::value_fields::{open_quote, undefined_macros};
use doc_reading::values::require;
use doc_types::arch::Arch;
use doc_types::pcd::{Kind, PcdName, pcd_name_of};
use doc_types::platform::PcdLine;
use meta_lexer::parts::{field_texts, first_text};
use std::alloc::Global;

fn check_number(alloc: Global, line: &Taken, text: Option<&[u8]>) -> Result<(), Refusal>
    ensures { Checks result (number_fault line.now (option_map (λ t. t.now) text.entry)) }
{
    match text {
        Some(text) => {
            let number = small_number(text);
            require(alloc, &number, BAD_NUMBER, &line.at, text)
        }
        None => Ok(()),
    }
}

fn check_form(
    alloc: Global,
    line: &Taken,
    stored: StoreKind,
    pcd: &Option<PcdName>,
    fields: &[Text],
) -> Result<(), Refusal>
    ensures { Checks result (form_fault line.now stored pcd.now fields.now) }
{
    match pcd {
        Some(_) => {
            if is_form(stored, fields) {
                return Ok(());
            }
            Err(refuse(alloc, DSC_BAD_PCD_LINE, &line.at, line.text.bytes()))
        }
        None => Err(refuse(alloc, DSC_BAD_PCD_LINE, &line.at, line.text.bytes())),
    }
}

fn made_pcd(
    alloc: Global,
    line: &Taken,
    kind: Kind,
    stored: StoreKind,
    arch: Arch,
    sku: &[u8],
    pcd: Option<PcdName>,
    fields: &[Text],
) -> Result<Option<PcdLine>, WantOfMemory>
    ensures { IfOk result (λ row. row ≡ made_pcd line.now kind stored arch sku.now pcd fields.now) }
{
    match pcd {
        Some(pcd) => Ok(Some(PcdLine {
            at: line.at.copy(alloc)?,
            arch,
            kind,
            sku: Text::of(alloc, sku)?,
            pcd,
            value: value_in(alloc, stored, fields)?,
            datum: datum_in(stored, fields),
            max: max_in(stored, fields),
            store: store_in(alloc, stored, fields)?,
        })),
        None => Ok(None),
    }
}

fn pcd_fields(
    alloc: Global,
    line: &Taken,
    kind: Kind,
    stored: StoreKind,
    arch: Arch,
    sku: &[u8],
    fields: &[Text],
) -> Result<Option<PcdLine>, Refusal>
    ensures { Answers result
        (unless_faulty (fields_faults line.now stored fields.now)
        (fields_pcd line.now kind stored arch sku.now fields.now)) }
{
    let pcd = pcd_name_of(alloc, first_text(fields))?;
    least_of_three(
        check_number(alloc, line, number_field(stored, fields)),
        undefined_macros(alloc, &line.at, fields),
        check_form(alloc, line, stored, &pcd, fields),
    )?;
    let row = made_pcd(alloc, line, kind, stored, arch, sku, pcd, fields)?;
    Ok(row)
}

/// What a line says of a PCD.
#[tactic(auto, unfolding(crate::specs::PcdLines::pcd_faults, crate::specs::PcdLines::pcd_of))]
pub fn pcd_line(
    alloc: Global,
    line: &Taken,
    kind: Kind,
    stored: StoreKind,
    arch: Arch,
    sku: &[u8],
) -> Result<Option<PcdLine>, Refusal>
    ensures { Answers result
        (unless_faulty (pcd_faults line.now stored) (pcd_of line.now kind stored arch sku.now)) }
{
    open_quote(alloc, &line.at, line.text.bytes())?;
    let fields = field_texts(alloc, line.text.bytes())?;
    pcd_fields(alloc, line, kind, stored, arch, sku, fields.items())
}
