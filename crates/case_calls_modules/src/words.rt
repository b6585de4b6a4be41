//! The words of the files that tell what is asked.

use build_base::{Guid, Rows, Text};
use case_calls_texts::path_of;
use case_player::{Stop, Wrong};
use doc_types::arch::{Arch, arch_named};
use doc_types::choice::Module;
use doc_types::module_type::{ModuleType, module_type_named};
use doc_types::pcd::{Datum, PcdName, datum_named, pcd_name_of};
use meta_lexer::number;
use std::alloc::Global;

pub fn arch_of(word: &str) -> Result<Arch, Wrong> {
    match arch_named(word.as_bytes()) {
        Some(arch) => Ok(arch),
        None => Err(Wrong::Line("no architecture has this name")),
    }
}

pub(crate) fn type_of(word: &str) -> Result<ModuleType, Wrong> {
    match module_type_named(word.as_bytes()) {
        Some(found) => Ok(found),
        None => Err(Wrong::Line("no module type has this name")),
    }
}

pub fn datum_of(word: &[u8]) -> Result<Datum, Wrong> {
    match datum_named(word) {
        Some(datum) => Ok(datum),
        None => Err(Wrong::Line("no type of a PCD")),
    }
}

pub fn number_of(word: &str) -> Result<u64, Wrong> {
    match number(word.as_bytes()) {
        Some(number) => Ok(number),
        None => Err(Wrong::Line("no number")),
    }
}

pub fn guid_of(word: &str) -> Result<Guid, Wrong> {
    match Guid::of_text(word.as_bytes()) {
        Some(guid) => Ok(guid),
        None => Err(Wrong::Line("a GUID of the call's file is none")),
    }
}

pub fn pcd_of(alloc: Global, word: &str) -> Result<PcdName, Stop> {
    match pcd_name_of(alloc, word.as_bytes())? {
        Some(pcd) => Ok(pcd),
        None => Err(Stop::Wrong(Wrong::Line("no name of a PCD"))),
    }
}

pub(crate) fn text_of_word(alloc: Global, word: &str) -> Result<Text, Stop> {
    Ok(Text::of(alloc, word.as_bytes())?)
}

/// The module of this architecture and INF file.
pub fn module_named(alloc: Global, arch: &str, inf: &str) -> Result<Module, Stop> {
    let arch = arch_of(arch)?;
    let inf = path_of(alloc, inf)?;
    Ok(Module { arch, inf })
}

/// The words of a line.
pub fn texts_of(alloc: Global, words: &str) -> Result<Rows<Text>, Stop> {
    let mut texts = Rows::new(alloc);
    for word in words.split(' ') {
        if !word.is_empty() {
            texts.push(text_of_word(alloc, word)?)?;
        }
    }
    Ok(texts)
}

/// A line that begins with no word that its file may have.
pub fn other_form() -> Stop {
    Stop::Wrong(Wrong::Line("a line of the call's file has another form"))
}
