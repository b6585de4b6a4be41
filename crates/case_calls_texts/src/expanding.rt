//! Calls of what makes a document's lines, include by include.

use crate::lines::{lines_of, path_of};
use build_base::{Got, Path, Rows, Text};
use case_player::{Output, Page, Stop};
use macro_conditions::{Known, Turned, expand};
use std::alloc::Global;

/// The lines of a document, each behind its place.
pub(crate) fn call_expand(page: &mut Page, files: &[Output], root: &str) -> Result<(), Stop> {
    let alloc = page.alloc();
    let lines = lines_of(alloc, files, &path_of(alloc, root)?)?;
    for line in lines.rows.items() {
        page.put(line.at.path.bytes());
        page.number(line.at.line);
        page.word(line.text.bytes());
        page.end();
    }
    Ok(())
}

fn known_file(alloc: Global, file: &Output) -> Result<Known, Stop> {
    let path = Path::new(alloc, file.path.as_slice())?;
    let bytes = Text::of(alloc, file.bytes.as_slice())?;
    let got = Got::File(bytes);
    Ok(Known { path, got })
}

fn known_files(alloc: Global, files: &[Output]) -> Result<Rows<Known>, Stop> {
    let mut all = Rows::new(alloc);
    for file in files {
        all.push(known_file(alloc, file)?)?;
    }
    Ok(all)
}

fn tell_wanted(page: &mut Page, turned: &Turned) {
    match turned {
        Turned::Whole(_lines) => page.put(b"none\n"),
        Turned::Need(paths) => tell_paths(page, paths.items()),
    }
}

fn tell_paths(page: &mut Page, paths: &[Path]) {
    for path in paths {
        page.put(path.bytes());
        page.end();
    }
}

/// The paths that a document's lines want where the files of the case alone are known.
pub(crate) fn call_wanted(page: &mut Page, files: &[Output], root: &str) -> Result<(), Stop> {
    let alloc = page.alloc();
    let root = path_of(alloc, root)?;
    let known = known_files(alloc, files)?;
    let none = Rows::new(alloc);
    let turned = expand(alloc, &root, &none, &none, &known)?;
    tell_wanted(page, &turned);
    Ok(())
}
