//! The fields of a line that need a value.
ghost use Rattle.meta_lexer.specs.Faults.{first_fault};
ghost use Rattle.build_base.specs.Answer.{Answers, Checks};
ghost use Rattle.doc_reading.specs.ValueFields.{undefined_macro, open_quote, guid_value, text_value, number_value, path_value};

use build_base::fault_codes::{BAD_EXPRESSION, BAD_PATH, OPEN_QUOTE, UNDEFINED_MACRO};
use build_base::path::path_field;
use build_base::{Guid, Path, Place, Refusal, Rows, Text, refuse};
use macro_expressions::macros::without_workspace;
use macro_expressions::{Value, evaluate};
use meta_lexer::field::ends_quoted;
use meta_lexer::words::has_macro_use;
use std::alloc::Global;

/// Refuses a field in which a macro is left that isn't defined.
pub fn undefined_macro(alloc: Global, at: &Place, text: &[u8]) -> Result<(), Refusal>
    ensures { Checks result (undefined_macro at.now text.now) }
{
    if has_macro_use(text) {
        return Err(refuse(alloc, UNDEFINED_MACRO, at, text));
    }
    Ok(())
}

/// Refuses the first of some fields in which a macro is left that isn't defined.
pub fn undefined_macros(alloc: Global, at: &Place, fields: &[Text]) -> Result<(), Refusal>
    ensures { Checks result (first_fault (undefined_macro at.now) fields.now) }
{
    for field in fields {
        undefined_macro(alloc, at, field.bytes())?;
    }
    Ok(())
}

/// Refuses a line in which a quote stays open.
pub fn open_quote(alloc: Global, at: &Place, text: &[u8]) -> Result<(), Refusal>
    ensures { Checks result (open_quote at.now text.now) }
{
    if ends_quoted(text) {
        return Err(refuse(alloc, OPEN_QUOTE, at, b"\"".as_slice()));
    }
    Ok(())
}

/// The GUID that a field states in registry form; `code` is the fault of a text that is none.
#[tactic(auto, unfolding(crate::specs::ValueFields::guid_value))]
pub(crate) fn guid_value(alloc: Global, code: u16, at: &Place, text: &[u8]) -> Result<Guid, Refusal>
    ensures { Answers result (guid_value code at.now text.now) }
{
    undefined_macro(alloc, at, text)?;
    match Guid::of_text(text) {
        Some(guid) => Ok(guid),
        None => Err(refuse(alloc, code, at, text)),
    }
}

/// A field that is kept as written.
#[tactic(auto, unfolding(crate::specs::ValueFields::text_value))]
pub fn text_value(alloc: Global, at: &Place, text: &[u8]) -> Result<Text, Refusal>
    ensures { Answers result (text_value at.now text.now) }
{
    undefined_macro(alloc, at, text)?;
    Ok(Text::of(alloc, text)?)
}

/// The number of a numeric field, which is an expression.
#[tactic(auto, unfolding(crate::specs::ValueFields::number_value))]
pub fn number_value(alloc: Global, at: &Place, text: &[u8]) -> Result<u64, Refusal>
    ensures { Answers result (number_value at.now text.now) }
{
    let written = Text::of(alloc, text)?;
    let none = Rows::new(alloc);
    match evaluate(alloc, at, &written, &none) {
        Ok(Value::Number(n)) => {
            if has_macro_use(text) {
                return Err(refuse(alloc, UNDEFINED_MACRO, at, text));
            }
            Ok(n)
        }
        Ok(Value::Word(_)) => Err(refuse(alloc, BAD_EXPRESSION, at, text)),
        Err(refusal) => Err(refusal),
    }
}

/// The path of a path field, without `$(WORKSPACE)/` at its front.
#[tactic(auto, unfolding(crate::specs::ValueFields::path_value))]
pub fn path_value(alloc: Global, at: &Place, text: &[u8]) -> Result<Path, Refusal>
    ensures { Answers result (path_value at.now text.now) }
{
    match path_field(alloc, without_workspace(text))? {
        Some(path) => Ok(path),
        None => Err(refuse(alloc, BAD_PATH, at, text)),
    }
}
