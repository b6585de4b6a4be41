//! The numbers of keys.
ghost use Rattle.std.specs.Prelude.{◌≡◌, IfOk, Some, ◌∷◌, []};
ghost use Rattle.build_base.specs.Answer.{Answers, Checks, Finds};
ghost use Rattle.doc_reading.specs.Least.{least_of};
ghost use Rattle.doc_reading.specs.Gathering.{unless_faulty};
ghost use Rattle.doc_reading.specs.ValueFields.{undefined_macro};
ghost use Rattle.build_base.specs.FaultText.{fault_of};
ghost use Rattle.fdf_words.specs.Numbers.{bad_line, later_macros, named_pcd, form_fault, limit_fault, order_fault, fields_faults, fields_number, number_faults, number_of_field};
ghost use Rattle.build_base.specs.FaultCodes.{BAD_KEY};

use build_base::fault_codes::{BAD_KEY, SIZE_TOO_LARGE};
use build_base::{Refusal, Taken, Text, WantOfMemory, refuse};
use doc_reading::least_check::{least_of_four, least_of_three, least_refusal, with_check};
use doc_reading::value_fields::{number_value, undefined_macro, undefined_macros};
use doc_types::pcd::{PcdName, pcd_name_of};
use doc_types::volume_head::SIZE_LIMIT;
use itoa::Buffer;
use meta_lexer::parts::{field_texts, first_text};
use std::alloc::Global;

/// How a key's number is written: any number, a polarity, or one with a PCD, of which a size has a
/// limit.
#[derive(Clone, Copy, PartialEq, Eq)]
pub enum NumberForm {
    Plain,
    Polarity,
    Address,
    Size,
}

/// A number, and the PCD that takes it.
#[derive(Drop)]
pub struct Numbered {
    pub number: u64,
    pub pcd: Option<PcdName>,
}

/// The refusal of a whole line.
pub fn bad_line(alloc: Global, code: u16, line: &Taken) -> Refusal
    ensures { Finds result (Some (bad_line code line.now)) }
{
    refuse(alloc, code, &line.at, line.text.bytes())
}

/// The refusal of a line that is of no form, unless a macro is left in it.
pub fn no_form(alloc: Global, code: u16, line: &Taken) -> Refusal
    ensures { Finds result
        (least_of (undefined_macro line.now.at line.now.text ∷ Some (bad_line code line.now)
        ∷ [])) }
{
    least_refusal(
        undefined_macro(alloc, &line.at, line.text.bytes()),
        bad_line(alloc, code, line),
    )
}

/// The refusal of a key, unless a macro is left in the text.
pub fn no_key(alloc: Global, line: &Taken, key: &[u8], text: &[u8]) -> Refusal
    ensures { Finds result
        (least_of (undefined_macro line.now.at text.now
        ∷ Some (fault_of BAD_KEY line.now.at key.now)
        ∷ [])) }
{
    least_refusal(
        undefined_macro(alloc, &line.at, text),
        refuse(alloc, BAD_KEY, &line.at, key),
    )
}

fn later_macros(alloc: Global, line: &Taken, fields: &[Text]) -> Result<(), Refusal>
    ensures { Checks result (later_macros line.now fields.now) }
{
    match fields {
        [_, rest @ ..] => undefined_macros(alloc, &line.at, rest),
        [] => Ok(()),
    }
}

fn named_pcd(
    alloc: Global,
    form: NumberForm,
    fields: &[Text],
) -> Result<Option<PcdName>, WantOfMemory>
    ensures { IfOk result (λ pcd. pcd ≡ named_pcd form fields.now) }
{
    match (form, fields) {
        (NumberForm::Address, [_, name]) => pcd_name_of(alloc, name.bytes()),
        (NumberForm::Size, [_, name]) => pcd_name_of(alloc, name.bytes()),
        _ => Ok(None),
    }
}

fn check_form(
    alloc: Global,
    line: &Taken,
    value: &[u8],
    fields: &[Text],
    pcd: &Option<PcdName>,
) -> Result<(), Refusal>
    ensures { Checks result (form_fault line.now value.now fields.now pcd.now) }
{
    match (fields, pcd) {
        ([_], _) => Ok(()),
        ([_, _], Some(_)) => Ok(()),
        _ => Err(refuse(alloc, BAD_KEY, &line.at, value)),
    }
}

fn check_limit(
    alloc: Global,
    line: &Taken,
    form: NumberForm,
    value: &[u8],
    number: u64,
) -> Result<(), Refusal>
    ensures { Checks result (limit_fault line.now form value.now number) }
{
    match form {
        NumberForm::Polarity => {
            if number <= 1 {
                return Ok(());
            }
            Err(refuse(alloc, BAD_KEY, &line.at, value))
        }
        NumberForm::Size => {
            if number <= SIZE_LIMIT {
                return Ok(());
            }
            let mut digits = Buffer::new();
            Err(refuse(
                alloc,
                SIZE_TOO_LARGE,
                &line.at,
                digits.format(number).as_bytes(),
            ))
        }
        NumberForm::Plain | NumberForm::Address => Ok(()),
    }
}

fn check_order(alloc: Global, line: &Taken, key: &[u8], misplaced: bool) -> Result<(), Refusal>
    ensures { Checks result (order_fault line.now key.now misplaced) }
{
    if misplaced {
        return Err(refuse(alloc, BAD_KEY, &line.at, key));
    }
    Ok(())
}

fn numbered_fields(
    alloc: Global,
    line: &Taken,
    form: NumberForm,
    key: &[u8],
    value: &[u8],
    misplaced: bool,
    fields: &[Text],
) -> Result<Option<Numbered>, Refusal>
    ensures { Answers result
        (unless_faulty (fields_faults line.now form key.now value.now misplaced fields.now)
        (fields_number line.now form fields.now)) }
{
    let pcd = named_pcd(alloc, form, fields)?;
    match number_value(alloc, &line.at, first_text(fields)) {
        Ok(number) => {
            least_of_four(
                later_macros(alloc, line, fields),
                check_form(alloc, line, value, fields, &pcd),
                check_limit(alloc, line, form, value, number),
                check_order(alloc, line, key, misplaced),
            )?;
            Ok(Some(Numbered { number, pcd }))
        }
        Err(Refusal::WantOfMemory) => Err(Refusal::WantOfMemory),
        Err(refusal) => Err(with_check(
            refusal,
            least_of_three(
                later_macros(alloc, line, fields),
                check_form(alloc, line, value, fields, &pcd),
                check_order(alloc, line, key, misplaced),
            ),
        )),
    }
}

/// The number of a key; `misplaced` is whether the key may not stand here.
#[tactic(auto, unfolding(crate::specs::Numbers::number_faults, crate::specs::Numbers::number_of_field))]
pub fn number_field(
    alloc: Global,
    line: &Taken,
    form: NumberForm,
    key: &[u8],
    value: &[u8],
    misplaced: bool,
) -> Result<Option<Numbered>, Refusal>
    ensures { Answers result
        (unless_faulty (number_faults line.now form key.now value.now misplaced)
        (number_of_field line.now form value.now)) }
{
    let fields = field_texts(alloc, value)?;
    numbered_fields(alloc, line, form, key, value, misplaced, fields.items())
}
