//! The documents that the files of a case are. Each is a copy of what was read.

ghost use Rattle.std.specs.Prelude.{IfOk};
ghost use Rattle.dsc_platform.specs.Shape.{HasShape};

use build_base::{Book, Lines, Path};
use case_calls_texts::{checked_copy, lines_of, path_of};
use case_player::{Output, Stop};
use dec_docs::read_dec;
use doc_types::flash::FlashDoc;
use doc_types::module::InfDoc;
use doc_types::package::DecDoc;
use doc_types::platform::PlatformDoc;
use dsc_platform::read_platform;
use flash_document::read_flash;
use inf_docs::read_inf;
use std::alloc::Global;

fn package_in(alloc: Global, lines: &Lines) -> Result<DecDoc, Stop> {
    let mut book = Book::new(alloc);
    Ok(read_dec(alloc, book.grant(())?, lines)?)
}

/// A package's declarations.
pub fn package_of(alloc: Global, files: &[Output], root: &Path) -> Result<DecDoc, Stop> {
    let lines = lines_of(alloc, files, root)?;
    let package = package_in(alloc, &lines)?;
    checked_copy(alloc, &package)
}

fn module_in(alloc: Global, lines: &Lines) -> Result<InfDoc, Stop> {
    let mut book = Book::new(alloc);
    Ok(read_inf(alloc, book.grant(())?, lines)?)
}

/// A module's description.
pub fn module_of(alloc: Global, files: &[Output], root: &Path) -> Result<InfDoc, Stop> {
    let lines = lines_of(alloc, files, root)?;
    let module = module_in(alloc, &lines)?;
    checked_copy(alloc, &module)
}

fn platform_in(alloc: Global, lines: &Lines) -> Result<PlatformDoc, Stop>
    ensures { IfOk result (λ platform. HasShape platform) }
{
    let mut book = Book::new(alloc);
    Ok(read_platform(alloc, book.grant(())?, lines)?)
}

/// A platform's description.
pub fn platform_of(alloc: Global, files: &[Output], root: &Path) -> Result<PlatformDoc, Stop>
    ensures { IfOk result (λ platform. HasShape platform) }
{
    let lines = lines_of(alloc, files, root)?;
    let platform = platform_in(alloc, &lines)?;
    checked_copy(alloc, &platform)
}

fn flash_in(alloc: Global, lines: &Lines) -> Result<FlashDoc, Stop> {
    let mut book = Book::new(alloc);
    Ok(read_flash(alloc, book.grant(())?, lines)?)
}

/// A flash description.
pub fn flash_of(alloc: Global, files: &[Output], root: &Path) -> Result<FlashDoc, Stop> {
    let lines = lines_of(alloc, files, root)?;
    let flash = flash_in(alloc, &lines)?;
    checked_copy(alloc, &flash)
}

pub fn package_at(alloc: Global, files: &[Output], word: &str) -> Result<DecDoc, Stop> {
    package_of(alloc, files, &path_of(alloc, word)?)
}

pub fn module_at(alloc: Global, files: &[Output], word: &str) -> Result<InfDoc, Stop> {
    module_of(alloc, files, &path_of(alloc, word)?)
}

pub fn platform_at(alloc: Global, files: &[Output], word: &str) -> Result<PlatformDoc, Stop>
    ensures { IfOk result (λ platform. HasShape platform) }
{
    platform_of(alloc, files, &path_of(alloc, word)?)
}

pub fn flash_at(alloc: Global, files: &[Output], word: &str) -> Result<FlashDoc, Stop> {
    flash_of(alloc, files, &path_of(alloc, word)?)
}
