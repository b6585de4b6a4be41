//! The line of a PCD.
ghost use Rattle.std.specs.Prelude.{◌≡◌, [], ◌∷◌, IfOk};
ghost use Rattle.build_base.specs.Answer.{Answers, Checks, Finds};
ghost use Rattle.doc_reading.specs.Least.{least_of};
ghost use Rattle.doc_reading.specs.Gathering.{unless_faulty};
ghost use Rattle.dec_docs.specs.PcdLines.{words_fault, parts_fault, token_fault, token_of, made_pcd, other_faults, fields_faults, fields_row, pcd_line_faults, pcd_line_row};

use crate::rows::{DecRow, Declared};
use build_base::fault_codes::{BAD_NUMBER, BAD_TOKEN, DEC_BAD_PCD_LINE};
use build_base::{Refusal, Same, Taken, Text, WantOfMemory, refuse};
use doc_reading::least_check::{least_of_four, least_refusal};
use doc_reading::value_fields::{open_quote, undefined_macro, undefined_macros};
use doc_reading::values::require;
use doc_types::arch::Arch;
use doc_types::package::DecPcd;
use doc_types::pcd::{Datum, Kind, PcdName, datum_named, pcd_name_of};
use meta_lexer::numbers::number;
use meta_lexer::parts::field_texts;
use std::alloc::Global;

fn check_words(
    alloc: Global,
    line: &Taken,
    name: &[u8],
    default: &[u8],
    datum: &[u8],
) -> Result<(), Refusal>
    ensures { Checks result (words_fault line.now name.now default.now datum.now) }
{
    undefined_macro(alloc, &line.at, name)?;
    undefined_macro(alloc, &line.at, default)?;
    undefined_macro(alloc, &line.at, datum)?;
    Ok(())
}

fn check_parts(
    alloc: Global,
    line: &Taken,
    pcd: &Option<PcdName>,
    default: &[u8],
    datum: Option<Datum>,
) -> Result<(), Refusal>
    ensures { Checks result (parts_fault line.now pcd.now default.now datum) }
{
    match (pcd, datum) {
        (Some(_), Some(_)) => {
            if default.is_empty() {
                return Err(refuse(alloc, DEC_BAD_PCD_LINE, &line.at, line.text.bytes()));
            }
            Ok(())
        }
        _ => Err(refuse(alloc, DEC_BAD_PCD_LINE, &line.at, line.text.bytes())),
    }
}

fn check_token(
    alloc: Global,
    line: &Taken,
    token: &[u8],
    number: Option<u64>,
) -> Result<(), Refusal>
    ensures { Checks result (token_fault line.now token.now number) }
{
    match number {
        Some(number) => {
            if number >= 0x1_0000_0000 {
                return Err(refuse(alloc, BAD_TOKEN, &line.at, token));
            }
            Ok(())
        }
        None => Ok(()),
    }
}

fn token_of(number: Option<u64>) -> Option<u32>
    ensures { result ≡ token_of number }
{
    match number {
        Some(number) => {
            if number < 0x1_0000_0000 {
                return Some(number as u32);
            }
            None
        }
        None => None,
    }
}

fn made_pcd(
    alloc: Global,
    line: &Taken,
    arch: Arch,
    kind: Kind,
    pcd: Option<PcdName>,
    default: &[u8],
    datum: Option<Datum>,
    token: Option<u32>,
) -> Result<Option<DecRow>, WantOfMemory>
    ensures { IfOk result (λ row. row ≡ made_pcd line.now arch kind pcd default.now datum token) }
{
    let (Some(pcd), Some(datum), Some(token)) = (pcd, datum, token) else {
        return Ok(None);
    };
    Ok(Some(DecRow::Row(Declared::Pcd(DecPcd {
        at: line.at.copy(alloc)?,
        arch,
        kind,
        pcd,
        default: Text::of(alloc, default)?,
        datum,
        token,
    }))))
}

fn four_fields(
    alloc: Global,
    line: &Taken,
    arch: Arch,
    kind: Kind,
    name: &[u8],
    default: &[u8],
    datum: &[u8],
    token: &[u8],
) -> Result<Option<DecRow>, Refusal>
    ensures { Answers result (unless_faulty
        (fields_faults line.now (name.now ∷ default.now ∷ datum.now ∷ token.now ∷ []))
        (fields_row line.now arch kind (name.now ∷ default.now ∷ datum.now ∷ token.now ∷ []))) }
{
    let pcd = pcd_name_of(alloc, name)?;
    let read = number(token);
    least_of_four(
        require(alloc, &read, BAD_NUMBER, &line.at, token),
        check_words(alloc, line, name, default, datum),
        check_parts(alloc, line, &pcd, default, datum_named(datum)),
        check_token(alloc, line, token, read),
    )?;
    let row = made_pcd(
        alloc,
        line,
        arch,
        kind,
        pcd,
        default,
        datum_named(datum),
        token_of(read),
    )?;
    Ok(row)
}

fn refuse_fields(alloc: Global, line: &Taken, fields: &[Text]) -> Refusal
    ensures { Finds result (least_of (other_faults line.now fields.now)) }
{
    least_refusal(
        undefined_macros(alloc, &line.at, fields),
        refuse(alloc, DEC_BAD_PCD_LINE, &line.at, line.text.bytes()),
    )
}

fn pcd_fields(
    alloc: Global,
    line: &Taken,
    arch: Arch,
    kind: Kind,
    fields: &[Text],
) -> Result<Option<DecRow>, Refusal>
    ensures { Answers result
        (unless_faulty (fields_faults line.now fields.now)
        (fields_row line.now arch kind fields.now)) }
{
    match fields {
        [name, default, datum, token] => four_fields(
            alloc,
            line,
            arch,
            kind,
            name.bytes(),
            default.bytes(),
            datum.bytes(),
            token.bytes(),
        ),
        _ => Err(refuse_fields(alloc, line, fields)),
    }
}

/// The PCD that a line `Space.Name|Default|Type|Token` declares.
#[tactic(auto, unfolding(crate::specs::PcdLines::pcd_line_faults, crate::specs::PcdLines::pcd_line_row))]
pub fn pcd_line(
    alloc: Global,
    line: &Taken,
    arch: Arch,
    kind: Kind,
) -> Result<Option<DecRow>, Refusal>
    ensures { Answers result
        (unless_faulty (pcd_line_faults line.now) (pcd_line_row line.now arch kind)) }
{
    open_quote(alloc, &line.at, line.text.bytes())?;
    let fields = field_texts(alloc, line.text.bytes())?;
    pcd_fields(alloc, line, arch, kind, fields.items())
}
