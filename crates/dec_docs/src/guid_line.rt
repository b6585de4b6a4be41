//! The line of a GUID.
ghost use Rattle.std.specs.Prelude.{◌≡◌, IfOk};
ghost use Rattle.meta_lexer.specs.Words.{split_once};
ghost use Rattle.build_base.specs.Answer.{Answers, Checks};
ghost use Rattle.doc_reading.specs.Gathering.{unless_faulty};
ghost use Rattle.dec_docs.specs.GuidLines.{words_fault, pair_fault, named_guid, field_faults, field_row, guid_line_faults, guid_line_row};

use crate::rows::{DecRow, Declared};
use build_base::fault_codes::DEC_BAD_GUID;
use build_base::{Guid, Refusal, Same, Taken, Text, WantOfMemory, refuse};
use doc_reading::least_check::{least_of_two, least_refusal};
use doc_reading::value_fields::{open_quote, undefined_macro};
use doc_reading::values::require;
use doc_types::arch::Arch;
use doc_types::depex::NamedGuid;
use meta_lexer::guid_braces::guid_of_braces;
use meta_lexer::parts::{field_texts, first_text};
use meta_lexer::words::{is_identifier, split_once};
use std::alloc::Global;

fn check_words(alloc: Global, line: &Taken, name: &[u8], value: &[u8]) -> Result<(), Refusal>
    ensures { Checks result (words_fault line.now name.now value.now) }
{
    undefined_macro(alloc, &line.at, name)?;
    undefined_macro(alloc, &line.at, value)?;
    Ok(())
}

fn check_pair(
    alloc: Global,
    line: &Taken,
    name: &[u8],
    value: &[u8],
    guid: &Option<Guid>,
) -> Result<(), Refusal>
    ensures { Checks result (pair_fault line.now name.now value.now guid.now) }
{
    if !is_identifier(name) {
        return Err(refuse(alloc, DEC_BAD_GUID, &line.at, line.text.bytes()));
    }
    require(alloc, guid, DEC_BAD_GUID, &line.at, value)
}

fn named_guid(
    alloc: Global,
    line: &Taken,
    arch: Arch,
    name: &[u8],
    guid: Option<Guid>,
) -> Result<Option<DecRow>, WantOfMemory>
    ensures { IfOk result (λ row. row ≡ named_guid line.now arch name.now guid) }
{
    match guid {
        Some(guid) => Ok(Some(DecRow::Row(Declared::Guid(NamedGuid {
            at: line.at.copy(alloc)?,
            arch,
            name: Text::of(alloc, name)?,
            guid,
        })))),
        None => Ok(None),
    }
}

fn guid_field(
    alloc: Global,
    line: &Taken,
    arch: Arch,
    field: &[u8],
) -> Result<Option<DecRow>, Refusal>
    ensures { Answers result
        (unless_faulty (field_faults line.now field.now (split_once 61 field.now))
        (field_row line.now arch (split_once 61 field.now))) }
{
    match split_once(b'=', field) {
        Some((name, value)) => {
            let guid = guid_of_braces(value);
            least_of_two(
                check_words(alloc, line, name, value),
                check_pair(alloc, line, name, value, &guid),
            )?;
            let row = named_guid(alloc, line, arch, name, guid)?;
            Ok(row)
        }
        None => Err(least_refusal(
            undefined_macro(alloc, &line.at, field),
            refuse(alloc, DEC_BAD_GUID, &line.at, line.text.bytes()),
        )),
    }
}

/// The name that a line `Name = { .. }` declares, where further fields are read past.
#[tactic(auto, unfolding(crate::specs::GuidLines::guid_line_faults, crate::specs::GuidLines::guid_line_row))]
pub fn guid_line(alloc: Global, line: &Taken, arch: Arch) -> Result<Option<DecRow>, Refusal>
    ensures { Answers result
        (unless_faulty (guid_line_faults line.now) (guid_line_row line.now arch)) }
{
    open_quote(alloc, &line.at, line.text.bytes())?;
    let fields = field_texts(alloc, line.text.bytes())?;
    guid_field(alloc, line, arch, first_text(fields.items()))
}
