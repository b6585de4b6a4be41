//! The line of a library.
ghost use Rattle.std.specs.Prelude.{◌≡◌, ◌∷◌, [], IfOk};
ghost use Rattle.build_base.specs.Answer.{Answers, Checks};
ghost use Rattle.doc_reading.specs.Gathering.{unless_faulty};
ghost use Rattle.dsc_lines.specs.LibraryLines.{class_fault, made_library, fields_faults, fields_library, library_faults, library_of};

use crate::form::refuse_form;
use build_base::fault_codes::{BAD_LIBRARY_LINE, BAD_PATH};
use build_base::path::path_field;
use build_base::{Path, Refusal, Same, Taken, Text, WantOfMemory, refuse};
use doc_reading::least_check::least_of_three;
use doc_reading::value_fields::{open_quote, undefined_macro};
use doc_reading::values::require;
use doc_types::arch::Arch;
use doc_types::module_type::ModuleType;
use doc_types::platform::LibraryLine;
use macro_expressions::macros::without_workspace;
use meta_lexer::parts::field_texts;
use meta_lexer::words::is_identifier;
use std::alloc::Global;

fn check_class(alloc: Global, line: &Taken, class: &[u8]) -> Result<(), Refusal>
    ensures { Checks result (class_fault line.now class.now) }
{
    if !is_identifier(class) {
        return Err(refuse(alloc, BAD_LIBRARY_LINE, &line.at, line.text.bytes()));
    }
    Ok(())
}

fn made_library(
    alloc: Global,
    line: &Taken,
    arch: Arch,
    kind: Option<ModuleType>,
    class: &[u8],
    instance: Option<Path>,
) -> Result<Option<LibraryLine>, WantOfMemory>
    ensures { IfOk result (λ row. row ≡ made_library line.now arch kind class.now instance) }
{
    match instance {
        Some(instance) => Ok(Some(LibraryLine {
            at: line.at.copy(alloc)?,
            arch,
            kind,
            class: Text::of(alloc, class)?,
            instance,
        })),
        None => Ok(None),
    }
}

fn two_fields(
    alloc: Global,
    line: &Taken,
    arch: Arch,
    kind: Option<ModuleType>,
    class: &[u8],
    path: &[u8],
) -> Result<Option<LibraryLine>, Refusal>
    ensures { Answers result
        (unless_faulty (fields_faults line.now (class.now ∷ path.now ∷ []))
        (fields_library line.now arch kind (class.now ∷ path.now ∷ []))) }
{
    let instance = path_field(alloc, without_workspace(path))?;
    least_of_three(
        check_class(alloc, line, class),
        undefined_macro(alloc, &line.at, class),
        require(alloc, &instance, BAD_PATH, &line.at, path),
    )?;
    let library = made_library(alloc, line, arch, kind, class, instance)?;
    Ok(library)
}

fn library_fields(
    alloc: Global,
    line: &Taken,
    arch: Arch,
    kind: Option<ModuleType>,
    fields: &[Text],
) -> Result<Option<LibraryLine>, Refusal>
    ensures { Answers result
        (unless_faulty (fields_faults line.now fields.now)
        (fields_library line.now arch kind fields.now)) }
{
    match fields {
        [class, path] => two_fields(alloc, line, arch, kind, class.bytes(), path.bytes()),
        _ => Err(refuse_form(alloc, BAD_LIBRARY_LINE, line, fields)),
    }
}

/// The library that a line `Class|path` states.
#[tactic(auto, unfolding(crate::specs::LibraryLines::library_faults, crate::specs::LibraryLines::library_of))]
pub fn library_line(
    alloc: Global,
    line: &Taken,
    arch: Arch,
    kind: Option<ModuleType>,
) -> Result<Option<LibraryLine>, Refusal>
    ensures { Answers result
        (unless_faulty (library_faults line.now) (library_of line.now arch kind)) }
{
    open_quote(alloc, &line.at, line.text.bytes())?;
    let fields = field_texts(alloc, line.text.bytes())?;
    library_fields(alloc, line, arch, kind, fields.items())
}
