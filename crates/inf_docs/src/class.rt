//! The library class that a module serves.
ghost use Rattle.std.specs.Prelude.{◌≡◌, ◌++◌, IfOk, OnOk};
ghost use Rattle.build_base.specs.Answer.{Checks};
ghost use Rattle.meta_lexer.specs.Faults.{first_fault};
ghost use Rattle.doc_reading.specs.Least.{least_of};
ghost use Rattle.doc_types.specs.ModuleTypes.{module_type_named};
ghost use Rattle.inf_docs.specs.Classes.{bad_class, type_fault, class_name_fault, served_fault, class_form, class_faults, type_given, types_named, class_served};
ghost use Rattle.std.specs.Prelude.{Some};

use build_base::fault_codes::{BAD_CLASS_LINE, BAD_TYPE};
use build_base::{Place, Refusal, Rows, Taken, Text, WantOfMemory, refuse};
use doc_reading::least_check::{least_of_one, least_of_two, lesser_check};
use doc_reading::value_fields::undefined_macros;
use doc_reading::values::require;
use doc_types::module::Served;
use doc_types::module_type::{ModuleType, module_type_named};
use meta_lexer::parts::words;
use meta_lexer::words::is_identifier;
use std::alloc::Global;

fn bad_class(alloc: Global, line: &Taken) -> Result<(), Refusal>
    ensures { Checks result (Some (bad_class line.now)) }
{
    Err(refuse(alloc, BAD_CLASS_LINE, &line.at, line.text.bytes()))
}

fn check_type(alloc: Global, at: &Place, word: &[u8]) -> Result<(), Refusal>
    ensures { Checks result (type_fault at.now word.now) }
{
    require(alloc, &module_type_named(word), BAD_TYPE, at, word)
}

fn check_types(alloc: Global, at: &Place, words: &[Text]) -> Result<(), Refusal>
    ensures { Checks result (first_fault (type_fault at.now) words.now) }
{
    for word in words {
        check_type(alloc, at, word.bytes())?;
    }
    Ok(())
}

fn check_class_name(alloc: Global, line: &Taken, name: &[u8]) -> Result<(), Refusal>
    ensures { Checks result (class_name_fault line.now name.now) }
{
    if !is_identifier(name) {
        return bad_class(alloc, line);
    }
    Ok(())
}

fn check_served(alloc: Global, line: &Taken, name: &[u8], words: &[Text]) -> Result<(), Refusal>
    ensures { Checks result (served_fault line.now name.now words.now) }
{
    if words.is_empty() {
        return bad_class(alloc, line);
    }
    check_class_name(alloc, line, name)
}

fn check_form(alloc: Global, line: &Taken, fields: &[Text]) -> Result<(), Refusal>
    ensures { Checks result (least_of (class_form line.now fields.now)) }
{
    match fields {
        [name] => least_of_one(check_class_name(alloc, line, name.bytes())),
        [name, types] => {
            let words = words(alloc, types.bytes())?;
            least_of_two(
                check_types(alloc, &line.at, words.items()),
                check_served(alloc, line, name.bytes(), words.items()),
            )
        }
        _ => least_of_one(bad_class(alloc, line)),
    }
}

/// Refuses fields that state no class.
#[tactic(auto, unfolding(crate::specs::Classes::class_faults))]
pub fn check_class(alloc: Global, line: &Taken, fields: &[Text]) -> Result<(), Refusal>
    ensures { Checks result (least_of (class_faults line.now fields.now)) }
{
    lesser_check(
        undefined_macros(alloc, &line.at, fields),
        check_form(alloc, line, fields),
    )
}

fn push_type(types: &mut Rows<ModuleType>, word: &[u8]) -> Result<(), WantOfMemory>
    ensures { OnOk result (types.new ≡ types.old ++ type_given (module_type_named word.now)) }
{
    match module_type_named(word) {
        Some(found) => types.push(found),
        None => Ok(()),
    }
}

fn types_named(alloc: Global, words: &[Text]) -> Result<Rows<ModuleType>, WantOfMemory>
    ensures { IfOk result (λ types. types ≡ types_named words.now) }
{
    let mut types = Rows::new(alloc);
    for word in words {
        push_type(&mut types, word.bytes())?;
    }
    Ok(types)
}

/// The class that fields state.
#[tactic(auto, unfolding(crate::specs::Classes::class_served))]
pub(crate) fn class_served(alloc: Global, fields: &[Text]) -> Result<Option<Served>, WantOfMemory>
    ensures { IfOk result (λ served. served ≡ class_served fields.now) }
{
    match fields {
        [name] => Ok(Some(Served {
            name: Text::of(alloc, name.bytes())?,
            types: Rows::new(alloc),
        })),
        [name, types] => {
            let words = words(alloc, types.bytes())?;
            Ok(Some(Served {
                name: Text::of(alloc, name.bytes())?,
                types: types_named(alloc, words.items())?,
            }))
        }
        _ => Ok(None),
    }
}
