//! Names, and the paths of packages.
ghost use Rattle.std.specs.Prelude.{◌≡◌, IfOk};
ghost use Rattle.build_base.specs.Answer.{Answers, Checks};
ghost use Rattle.doc_reading.specs.Gathering.{unless_faulty};
ghost use Rattle.doc_reading.specs.Least.{least_of};
ghost use Rattle.inf_docs.specs.Names.{name_fault, name_faults, name_for, name_line_faults, name_line, package_faults, package_row};

use crate::row::Row;
use build_base::fault_codes::{BAD_NAME, BAD_PATH};
use build_base::path::path_field;
use build_base::{Place, Refusal, Same, Taken, Text, WantOfMemory, refuse};
use doc_reading::least_check::{least_of_one, least_of_two};
use doc_reading::value_fields::{open_quote, undefined_macro};
use doc_reading::values::require;
use doc_types::arch::Arch;
use doc_types::module::Named;
use macro_expressions::macros::without_workspace;
use meta_lexer::parts::{field_texts, first_text};
use meta_lexer::words::is_identifier;
use std::alloc::Global;

fn check_identifier(alloc: Global, at: &Place, text: &[u8]) -> Result<(), Refusal>
    ensures { Checks result (name_fault at.now text.now) }
{
    if !is_identifier(text) {
        return Err(refuse(alloc, BAD_NAME, at, text));
    }
    Ok(())
}

/// Refuses a text that is no identifier.
pub fn check_name(alloc: Global, at: &Place, text: &[u8]) -> Result<(), Refusal>
    ensures { Checks result (least_of (name_faults at.now text.now)) }
{
    least_of_two(
        undefined_macro(alloc, at, text),
        check_identifier(alloc, at, text),
    )
}

/// A name for an architecture.
pub(crate) fn name_for(
    alloc: Global,
    at: &Place,
    arch: Arch,
    name: &[u8],
) -> Result<Named, WantOfMemory>
    ensures { IfOk result (λ n. n ≡ name_for at.now arch name.now) }
{
    Ok(Named {
        at: at.copy(alloc)?,
        arch,
        name: Text::of(alloc, name)?,
    })
}

/// The name that a line states in its first field.
#[tactic(auto, unfolding(crate::specs::Names::name_line_faults, crate::specs::Names::name_line))]
pub fn name_line(alloc: Global, line: &Taken, arch: Arch) -> Result<Named, Refusal>
    ensures { Answers result (unless_faulty (name_line_faults line.now) (name_line line.now arch)) }
{
    open_quote(alloc, &line.at, line.text.bytes())?;
    let fields = field_texts(alloc, line.text.bytes())?;
    let name = first_text(fields.items());
    check_name(alloc, &line.at, name)?;
    let named = name_for(alloc, &line.at, arch, name)?;
    Ok(named)
}

/// The path of a package, in a line's first field.
#[tactic(auto, unfolding(crate::specs::Names::package_faults, crate::specs::Names::package_row))]
pub(crate) fn package_line(alloc: Global, line: &Taken, arch: Arch) -> Result<Option<Row>, Refusal>
    ensures { Answers result (unless_faulty (package_faults line.now) (package_row line.now arch)) }
{
    open_quote(alloc, &line.at, line.text.bytes())?;
    let fields = field_texts(alloc, line.text.bytes())?;
    let field = first_text(fields.items());
    let path = path_field(alloc, without_workspace(field))?;
    least_of_one(require(alloc, &path, BAD_PATH, &line.at, field))?;
    match path {
        Some(path) => {
            let named = name_for(alloc, &line.at, arch, path.bytes())?;
            Ok(Some(Row::Package(named)))
        }
        None => Ok(None),
    }
}
