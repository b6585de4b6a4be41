//! Whether the instance that a line chooses serves the class and the module.
ghost use Rattle.std.specs.Prelude.{◌≡◌, ◌&&◌};
ghost use Rattle.std.specs.List.{list_any};
ghost use Rattle.std.specs.Option.{option_copied};
ghost use Rattle.build_base.specs.Answer.{Checks};
ghost use Rattle.doc_types.specs.declared.module.Served.{Served as ServedRow};
ghost use Rattle.library_choice.specs.Choices.{is_free, takes, names, served_fault, instance_fault, line_fault, class_fault, path_fault, classes_fault};
ghost use Rattle.library_choice.specs.Lines.{same_type};
ghost use Rattle.meta_lexer.specs.Faults.{first_fault};

use crate::tables::Tables;
use build_base::fault_codes::{CLASS_NOT_SERVED, CLASS_UNRESOLVED, TYPE_NOT_SERVED};
use build_base::{Path, Refusal, refuse};
use doc_types::arch::covers;
use doc_types::module::{InfDoc, Named, Served};
use doc_types::module_type::ModuleType;
use doc_types::platform::LibraryLine;
use line_ranks::{Consumer, same_type};
use std::alloc::Global;

fn is_free(kind: ModuleType) -> bool
    ensures { result ≡ is_free kind }
{
    matches!(kind, ModuleType::UserDefined | ModuleType::HostApplication)
}

fn lists(types: &[ModuleType], kind: ModuleType) -> bool
    ensures { result ≡ list_any (λ t. same_type t kind) types.now }
{
    types.iter().any(|stated| same_type(*stated, kind))
}

fn takes(user: Consumer, served: &Served) -> bool
    ensures { result ≡ takes user served.now }
{
    is_free(user.kind) || served.types.items().is_empty() || lists(served.types.items(), user.kind)
}

fn names(class: &[u8], served: &Served) -> bool
    ensures { result ≡ names class.now served.now }
{
    served.name.bytes() == class
}

fn any_names(class: &[u8], serves: &[Served]) -> bool
    ensures { result ≡ list_any (names class.now) serves.now }
{
    serves.iter().any(|served| names(class, served))
}

fn any_takes(user: Consumer, class: &[u8], serves: &[Served]) -> bool
    ensures { result ≡ list_any (λ (served : ServedRow).
        names class.now served && takes user served) serves.now }
{
    serves
        .iter()
        .any(|served| names(class, served) && takes(user, served))
}

// 303 where no LIBRARY_CLASS names the class, 302 where none that names it takes the module's type.
#[tactic(auto, unfolding(crate::specs::Choices::served_fault))]
fn check_served(
    alloc: Global,
    user: Consumer,
    line: &LibraryLine,
    class: &[u8],
    serves: &[Served],
) -> Result<(), Refusal>
    ensures { Checks result (served_fault user line.now class.now serves.now) }
{
    if !any_names(class, serves) {
        return Err(refuse(alloc, CLASS_NOT_SERVED, &line.at, class));
    }
    if !any_takes(user, class, serves) {
        return Err(refuse(alloc, TYPE_NOT_SERVED, &line.at, class));
    }
    Ok(())
}

fn check_instance(
    alloc: Global,
    user: Consumer,
    line: &LibraryLine,
    class: &[u8],
    inf: Option<&InfDoc>,
) -> Result<(), Refusal>
    ensures { Checks result (instance_fault user line.now class.now (option_copied inf.entry)) }
{
    match inf {
        None => Ok(()),
        Some(inf) => check_served(alloc, user, line, class, inf.serves.items()),
    }
}

fn check_line(
    alloc: Global,
    tables: &Tables<'_>,
    class: &Named,
    line: Option<&LibraryLine>,
) -> Result<(), Refusal>
    ensures { Checks result (line_fault tables.now class.now (option_copied line.entry)) }
{
    match line {
        None => Err(refuse(alloc, CLASS_UNRESOLVED, &class.at, class.name.bytes())),
        Some(line) => {
            let inf = tables.inf_at(&line.instance);
            check_instance(alloc, tables.user(), line, class.name.bytes(), inf)
        }
    }
}

#[tactic(auto, unfolding(crate::specs::Choices::class_fault))]
fn check_class(alloc: Global, tables: &Tables<'_>, class: &Named) -> Result<(), Refusal>
    ensures { Checks result (class_fault tables.now class.now) }
{
    if !covers(class.arch, tables.user().arch) {
        return Ok(());
    }
    let line = tables.chosen_line(&class.name);
    check_line(alloc, tables, class, line)
}

fn check_classes(alloc: Global, tables: &Tables<'_>, classes: &[Named]) -> Result<(), Refusal>
    ensures { Checks result (first_fault (class_fault tables.now) classes.now) }
{
    for class in classes {
        check_class(alloc, tables, class)?;
    }
    Ok(())
}

fn check_path(alloc: Global, tables: &Tables<'_>, path: &Path) -> Result<(), Refusal>
    ensures { Checks result (path_fault tables.now path.now) }
{
    match tables.inf_at(path) {
        None => Ok(()),
        Some(inf) => check_classes(alloc, tables, inf.classes.items()),
    }
}

fn check_paths(alloc: Global, tables: &Tables<'_>, found: &[Path]) -> Result<(), Refusal>
    ensures { Checks result (first_fault (path_fault tables.now) found.now) }
{
    for path in found {
        check_path(alloc, tables, path)?;
    }
    Ok(())
}

/// The faults of classes: the module's, and then those of each instance.
#[tactic(auto, unfolding(crate::specs::Choices::classes_fault))]
pub(crate) fn check_all(
    alloc: Global,
    tables: &Tables<'_>,
    inf: &InfDoc,
    found: &[Path],
) -> Result<(), Refusal>
    ensures { Checks result (classes_fault tables.now inf.now found.now) }
{
    check_classes(alloc, tables, inf.classes.items())?;
    check_paths(alloc, tables, found)
}
