//! The lines of [SkuIds].
ghost use Rattle.std.specs.Prelude.{◌≡◌, List, ℕ, IfOk};
ghost use Rattle.std.specs.List.{list_all};
ghost use Rattle.build_base.specs.Answer.{Answers, Checks};
ghost use Rattle.doc_reading.specs.Gathering.{unless_faulty};
ghost use Rattle.dsc_lines.specs.PcdLines.{is_there};
ghost use Rattle.dsc_lines.specs.SkuNames.{Placed};
ghost use Rattle.dsc_lines.specs.SkuLines.{is_sku_byte, is_sku_name, is_default, place_of, name_field, others_fault, is_other_number, is_root_form, is_child_form, is_sku_form, sku_fault, fields_faults, root_parent, numbered_sku, fields_sku, sku_faults, sku_of};

use crate::rows::SkuLine;
use crate::sku_names::place_of;
use build_base::fault_codes::BAD_SKU_LINE;
use build_base::{Refusal, Same, Taken, Text, WantOfMemory, refuse};
use doc_reading::least_check::{least_of_two, with_check};
use doc_reading::value_fields::{number_value, open_quote, undefined_macros};
use doc_types::platform::Sku;
use indexmap::IndexMap;
use meta_lexer::parts::{field_texts, first_text};
use meta_lexer::token::is_word_byte;
use std::alloc::Global;

fn is_sku_byte(byte: u8) -> bool
    ensures { result ≡ is_sku_byte byte }
{
    is_word_byte(byte) || byte == b'-'
}

fn has_sku_bytes_alone(text: &[u8]) -> bool
    ensures { result ≡ list_all is_sku_byte text.now }
{
    text.iter().all(|byte| is_sku_byte(*byte))
}

#[tactic(auto, unfolding(crate::specs::SkuLines::is_sku_name))]
fn is_sku_name(text: &[u8]) -> bool
    ensures { result ≡ is_sku_name text.now }
{
    !text.is_empty() && text.len() <= 64 && has_sku_bytes_alone(text)
}

/// Whether a name is that of the SKU which every platform has.
#[tactic(auto, unfolding(crate::specs::SkuLines::is_default))]
pub fn is_default(text: &[u8]) -> bool
    ensures { result ≡ is_default text.now }
{
    text == b"DEFAULT".as_slice()
}

fn name_field(fields: &[Text]) -> &[u8]
    ensures { result.now ≡ name_field fields.now }
{
    match fields {
        [_, name, ..] => name.bytes(),
        _ => b"".as_slice(),
    }
}

fn check_others(alloc: Global, line: &Taken, fields: &[Text]) -> Result<(), Refusal>
    ensures { Checks result (others_fault line.now fields.now) }
{
    match fields {
        [_, others @ ..] => undefined_macros(alloc, &line.at, others),
        [] => Ok(()),
    }
}

fn is_other_number(number: Option<u64>) -> bool
    ensures { result ≡ is_other_number number }
{
    match number {
        Some(number) => number != 0,
        None => false,
    }
}

fn is_root_form(number: Option<u64>, name: &[u8]) -> bool
    ensures { result ≡ is_root_form number name.now }
{
    is_sku_name(name) && !(is_default(name) && is_other_number(number))
}

fn is_child_form(name: &[u8], parent: &[u8]) -> bool
    ensures { result ≡ is_child_form name.now parent.now }
{
    is_sku_name(name) && is_sku_name(parent) && !is_default(name)
}

fn is_sku_form(number: Option<u64>, fields: &[Text]) -> bool
    ensures { result ≡ is_sku_form number fields.now }
{
    match fields {
        [_, name] => is_root_form(number, name.bytes()),
        [_, name, parent] => is_child_form(name.bytes(), parent.bytes()),
        _ => false,
    }
}

fn check_form(
    alloc: Global,
    line: &Taken,
    number: Option<u64>,
    fields: &[Text],
    taken: bool,
) -> Result<(), Refusal>
    ensures { Checks result (sku_fault line.now number fields.now taken) }
{
    if is_sku_form(number, fields) && !taken {
        return Ok(());
    }
    Err(refuse(alloc, BAD_SKU_LINE, &line.at, line.text.bytes()))
}

fn root_parent(name: &[u8]) -> &[u8]
    ensures { result.now ≡ root_parent name.now }
{
    if is_default(name) {
        return b"".as_slice();
    }
    b"DEFAULT".as_slice()
}

fn made_sku(
    alloc: Global,
    line: &Taken,
    id: u64,
    name: &[u8],
    parent: &[u8],
) -> Result<SkuLine, WantOfMemory>
    ensures { IfOk result
        (λ s. s
        ≡ record {
          at = line.now.at;
          sku =
              record { id = id; name = name.now; parent = parent.now };
        }) }
{
    Ok(SkuLine {
        at: line.at.copy(alloc)?,
        sku: Sku {
            id,
            name: Text::of(alloc, name)?,
            parent: Text::of(alloc, parent)?,
        },
    })
}

fn numbered_sku(
    alloc: Global,
    line: &Taken,
    id: u64,
    fields: &[Text],
) -> Result<Option<SkuLine>, WantOfMemory>
    ensures { IfOk result (λ row. row ≡ numbered_sku line.now id fields.now) }
{
    match fields {
        [_, name] => {
            let sku = made_sku(alloc, line, id, name.bytes(), root_parent(name.bytes()))?;
            Ok(Some(sku))
        }
        [_, name, parent] => {
            let sku = made_sku(alloc, line, id, name.bytes(), parent.bytes())?;
            Ok(Some(sku))
        }
        _ => Ok(None),
    }
}

fn sku_fields(
    alloc: Global,
    line: &Taken,
    fields: &[Text],
    taken: bool,
) -> Result<Option<SkuLine>, Refusal>
    ensures { Answers result
        (unless_faulty (fields_faults line.now fields.now taken) (fields_sku line.now fields.now)) }
{
    match number_value(alloc, &line.at, first_text(fields)) {
        Ok(id) => {
            least_of_two(
                check_others(alloc, line, fields),
                check_form(alloc, line, Some(id), fields, taken),
            )?;
            let sku = numbered_sku(alloc, line, id, fields)?;
            Ok(sku)
        }
        Err(Refusal::WantOfMemory) => Err(Refusal::WantOfMemory),
        Err(refusal) => Err(with_check(
            refusal,
            least_of_two(
                check_others(alloc, line, fields),
                check_form(alloc, line, None, fields, taken),
            ),
        )),
    }
}

fn is_taken(
    alloc: Global,
    names: &IndexMap<Vec<u8>, usize>,
    fields: &[Text],
) -> Result<bool, WantOfMemory>
    ensures { (above : List (List ℕ)) → Placed above names.now
        → IfOk result (λ t. t ≡ is_there (place_of (name_field fields.now) above)) }
{
    match place_of(alloc, names, name_field(fields))? {
        Some(_) => Ok(true),
        None => Ok(false),
    }
}

/// The SKU that a line states below lines with these names.
#[tactic(auto, unfolding(crate::specs::SkuLines::sku_faults, crate::specs::SkuLines::sku_of))]
pub fn sku_line(
    alloc: Global,
    line: &Taken,
    names: &IndexMap<Vec<u8>, usize>,
) -> Result<Option<SkuLine>, Refusal>
    ensures { (above : List (List ℕ)) → Placed above names.now
        → Answers result (unless_faulty (sku_faults above line.now) (sku_of line.now)) }
{
    open_quote(alloc, &line.at, line.text.bytes())?;
    let fields = field_texts(alloc, line.text.bytes())?;
    let taken = is_taken(alloc, names, fields.items())?;
    sku_fields(alloc, line, fields.items(), taken)
}
