//! Calls on dependency expressions.
//!
//! The file of a call has a line `inf` for each INF file, and below it what that file adds to the
//! expression: a line `guid NAME GUID` for a name that its packages declare, a line `depex TERMS`
//! for a section.

use crate::words::{guid_of, other_form, text_of_word, texts_of, type_of};
use build_base::{Book, Path, Place, Rows, Same, Text};
use case_calls_documents::{module_at, package_of};
use case_calls_texts::{checked_copy, place_of};
use case_player::{Output, Page, Stop, Wrong, file_of, first_word, text_of};
use depex_code::{compile, compiled_reads_back, read_back};
use doc_types::arch::Arch;
use doc_types::depex::{Depex, DepexGroup, DepexPart, NamedGuid};
use doc_types::module::InfDoc;
use doc_types::module_type::ModuleType;
use std::alloc::Global;

fn tell_opcode(page: &mut Page, depex: &Depex) {
    match depex {
        Depex::Push(_) => page.put(b"PUSH\n"),
        Depex::And(_, _) => page.put(b"AND\n"),
        Depex::Or(_, _) => page.put(b"OR\n"),
        Depex::Not(_) => page.put(b"NOT\n"),
        Depex::True => page.put(b"TRUE\n"),
        Depex::False => page.put(b"FALSE\n"),
        Depex::Before(_) => page.put(b"BEFORE\n"),
        Depex::After(_) => page.put(b"AFTER\n"),
        Depex::Sor(_) => page.put(b"SOR\n"),
    }
}

/// The opcode at the tree's root as a line of standard output, or the status 1.
pub(crate) fn call_read_back(page: &mut Page, files: &[Output], path: &str) -> Result<(), Stop> {
    match read_back(page.alloc(), file_of(files, path)?)? {
        Some(depex) => tell_opcode(page, &depex),
        None => page.fail(b""),
    }
    Ok(())
}

fn named_guid_of(alloc: Global, at: Place, words: &str) -> Result<NamedGuid, Stop> {
    let (name, guid) = first_word(words);
    let guid = guid_of(guid)?;
    Ok(NamedGuid {
        at,
        arch: Arch::Common,
        name: text_of_word(alloc, name)?,
        guid,
    })
}

fn part(alloc: Global, at: Place, words: &str) -> Result<DepexPart, Stop> {
    let terms = texts_of(alloc, words)?;
    Ok(DepexPart {
        at,
        arch: Arch::Common,
        kind: None,
        terms,
    })
}

fn add_guid(
    alloc: Global,
    guids: &mut Rows<NamedGuid>,
    at: Place,
    words: &str,
) -> Result<(), Stop> {
    guids.push(named_guid_of(alloc, at, words)?)?;
    Ok(())
}

fn add_part(
    alloc: Global,
    parts: &mut Rows<DepexPart>,
    at: Place,
    words: &str,
) -> Result<(), Stop> {
    parts.push(part(alloc, at, words)?)?;
    Ok(())
}

fn add_to_group(alloc: Global, group: &mut DepexGroup, at: Place, line: &str) -> Result<(), Stop> {
    let (word, rest) = first_word(line);
    match word {
        "guid" => add_guid(alloc, &mut group.guids, at, rest),
        "depex" => add_part(alloc, &mut group.parts, at, rest),
        _ => Err(other_form()),
    }
}

fn empty_group(alloc: Global) -> DepexGroup {
    DepexGroup {
        parts: Rows::new(alloc),
        guids: Rows::new(alloc),
    }
}

fn begin_group(alloc: Global, groups: &mut Vec<DepexGroup>) -> Result<(), Wrong> {
    groups.push(empty_group(alloc))?;
    Ok(())
}

fn add_to_last(
    alloc: Global,
    groups: &mut [DepexGroup],
    at: Place,
    line: &str,
) -> Result<(), Stop> {
    match groups.last_mut() {
        Some(group) => add_to_group(alloc, group, at, line),
        None => Err(other_form()),
    }
}

// The lines of a text, each with its number, in groups.
fn add_lines(
    alloc: Global,
    groups: &mut Vec<DepexGroup>,
    path: &str,
    text: &str,
) -> Result<(), Stop> {
    let mut number: u64 = 0;
    for line in text.lines() {
        number = number.saturating_add(1);
        if line != "inf" {
            let at = place_of(alloc, path, number)?;
            add_to_last(alloc, groups.as_mut_slice(), at, line)?;
        } else if number > 1 {
            begin_group(alloc, groups)?;
        }
    }
    Ok(())
}

fn groups_of(alloc: Global, path: &str, text: &str) -> Result<Rows<DepexGroup>, Stop> {
    let mut groups = Vec::new(alloc);
    begin_group(alloc, &mut groups)?;
    add_lines(alloc, &mut groups, path, text)?;
    Ok(Rows::from_vec(groups))
}

fn code_of(alloc: Global, found: ModuleType, groups: &Rows<DepexGroup>) -> Result<Text, Stop> {
    let mut book: Book<u8> = Book::new(alloc);
    Ok(compile(alloc, book.grant(1)?, found, groups)?)
}

fn tell_code(page: &mut Page, found: ModuleType, groups: &Rows<DepexGroup>) -> Result<(), Stop> {
    let alloc = page.alloc();
    let groups = checked_copy(alloc, groups)?;
    compiled_reads_back(found, &groups);
    let code = code_of(alloc, found, &groups)?;
    page.file(b"code", code.bytes());
    Ok(())
}

/// The file `code`, or the fault, of the expression of a module of the type that the first word
/// names.
pub(crate) fn call_compile(page: &mut Page, files: &[Output], words: &str) -> Result<(), Stop> {
    let (found, path) = first_word(words);
    let found = type_of(found)?;
    let path = path.trim_ascii();
    let groups = groups_of(page.alloc(), path, text_of(files, path)?)?;
    tell_code(page, found, &groups)
}

fn add_copies(
    alloc: Global,
    names: &mut Rows<NamedGuid>,
    declared: &[NamedGuid],
) -> Result<(), Stop> {
    for row in declared {
        names.push(row.copy(alloc)?)?;
    }
    Ok(())
}

// The names that a package declares, behind those of the packages above.
fn add_names(
    alloc: Global,
    files: &[Output],
    names: &mut Rows<NamedGuid>,
    path: &[u8],
) -> Result<(), Stop> {
    let path = Path::new(alloc, path)?;
    let package = package_of(alloc, files, &path)?;
    add_copies(alloc, names, package.guids.items())
}

fn group_of(alloc: Global, files: &[Output], module: &InfDoc) -> Result<DepexGroup, Stop> {
    let mut group = empty_group(alloc);
    for package in module.packages.items() {
        add_names(alloc, files, &mut group.guids, package.name.bytes())?;
    }
    group.parts = module.depex.copy(alloc)?;
    Ok(group)
}

fn groups_of_module(
    alloc: Global,
    files: &[Output],
    module: &InfDoc,
) -> Result<Rows<DepexGroup>, Stop> {
    let mut groups = Rows::new(alloc);
    groups.push(group_of(alloc, files, module)?)?;
    Ok(groups)
}

/// The bytes of a module's dependency expression, with the names of its packages.
pub(crate) fn call_compile_module(
    page: &mut Page,
    files: &[Output],
    root: &str,
) -> Result<(), Stop> {
    let alloc = page.alloc();
    let module = module_at(alloc, files, root)?;
    let groups = groups_of_module(alloc, files, &module)?;
    tell_code(page, module.module_type, &groups)
}
