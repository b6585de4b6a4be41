//! The lines `SET PCD = value`.
ghost use Rattle.std.specs.Prelude.{◌≡◌, IfOk};
ghost use Rattle.build_base.specs.Answer.{Answers, Checks};
ghost use Rattle.doc_reading.specs.Gathering.{unless_faulty};
ghost use Rattle.doc_types.specs.Pcds.{pcd_name_of};
ghost use Rattle.fdf_words.specs.SetLines.{parts_fault, parts_faults, made_set, told_of, set_faults, set_row};

use crate::number::no_key;
use crate::rows::Row;
use crate::words::first_word;
use build_base::fault_codes::BAD_KEY;
use build_base::{Refusal, Same, Taken, Text, WantOfMemory, refuse};
use doc_reading::least_check::least_of_three;
use doc_reading::value_fields::undefined_macro;
use doc_types::pcd::{PcdName, PcdSet, pcd_name_of};
use meta_lexer::words::split_once;
use std::alloc::Global;

fn check_parts(
    alloc: Global,
    line: &Taken,
    name: &[u8],
    pcd: &Option<PcdName>,
    value: &[u8],
) -> Result<(), Refusal>
    ensures { Checks result (parts_fault line.now name.now pcd.now value.now) }
{
    match pcd {
        Some(_) => {
            if value.is_empty() {
                return Err(refuse(alloc, BAD_KEY, &line.at, name));
            }
            Ok(())
        }
        None => Err(refuse(alloc, BAD_KEY, &line.at, name)),
    }
}

fn made_set(
    alloc: Global,
    line: &Taken,
    rank: u8,
    pcd: Option<PcdName>,
    value: &[u8],
) -> Result<Option<Row>, WantOfMemory>
    ensures { IfOk result (λ row. row ≡ made_set line.now rank pcd value.now) }
{
    match pcd {
        Some(pcd) => Ok(Some(Row::Set(PcdSet {
            at: line.at.copy(alloc)?,
            rank,
            pcd,
            value: Text::of(alloc, value)?,
        }))),
        None => Ok(None),
    }
}

fn parts_row(
    alloc: Global,
    line: &Taken,
    rank: u8,
    name: &[u8],
    value: &[u8],
) -> Result<Option<Row>, Refusal>
    ensures { Answers result
        (unless_faulty (parts_faults line.now name.now value.now)
        (made_set line.now rank (pcd_name_of name.now) value.now)) }
{
    let pcd = pcd_name_of(alloc, name)?;
    least_of_three(
        undefined_macro(alloc, &line.at, name),
        undefined_macro(alloc, &line.at, value),
        check_parts(alloc, line, name, &pcd, value),
    )?;
    let row = made_set(alloc, line, rank, pcd, value)?;
    Ok(row)
}

fn told_of<'a>(line: &'a Taken, text: &'a [u8]) -> &'a [u8]
    ensures { result.now ≡ told_of line.now text.now }
{
    if text.is_empty() {
        line.text.bytes()
    } else {
        text
    }
}

/// The value that a line gives to a PCD.
#[tactic(auto, unfolding(crate::specs::SetLines::set_faults, crate::specs::SetLines::set_row))]
pub fn set_line(alloc: Global, line: &Taken, rank: u8) -> Result<Option<Row>, Refusal>
    ensures { Answers result (unless_faulty (set_faults line.now) (set_row line.now rank)) }
{
    let (_, rest) = first_word(line.text.bytes());
    match split_once(b'=', rest) {
        Some((name, value)) => parts_row(alloc, line, rank, name, value),
        None => Err(no_key(alloc, line, told_of(line, rest), rest)),
    }
}
