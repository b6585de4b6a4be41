//! The lines of a document.

use crate::copies::checked_copy;
use build_base::{Got, Lines, Path, Place, Rows, Same, Text};
use case_player::{Output, Stop, Wrong};
use macro_conditions::{Known, Turned, expand};
use std::alloc::Global;

/// The path that a word of the call is.
pub fn path_of(alloc: Global, word: &str) -> Result<Path, Stop> {
    Ok(Path::new(alloc, word.trim_ascii().as_bytes())?)
}

/// A line of the file with this path.
pub fn place_of(alloc: Global, path: &str, line: u64) -> Result<Place, Stop> {
    let path = path_of(alloc, path)?;
    Ok(Place { path, line })
}

fn content_of(alloc: Global, files: &[Output], path: &Path) -> Result<Got, Stop> {
    for file in files {
        if file.path.as_slice() == path.bytes() {
            return Ok(Got::File(Text::of(alloc, file.bytes.as_slice())?));
        }
    }
    Ok(Got::Absent)
}

fn known_at(alloc: Global, files: &[Output], path: &Path) -> Result<Known, Stop> {
    let got = content_of(alloc, files, path)?;
    let path = path.copy(alloc)?;
    Ok(Known { path, got })
}

fn answer(
    alloc: Global,
    files: &[Output],
    known: &mut Rows<Known>,
    paths: &[Path],
) -> Result<(), Stop> {
    for path in paths {
        known.push(known_at(alloc, files, path)?)?;
    }
    Ok(())
}

fn expand_known(alloc: Global, root: &Path, known: &Rows<Known>) -> Result<Turned, Stop> {
    let none = Rows::new(alloc);
    Ok(expand(alloc, root, &none, &none, known)?)
}

/// The lines that a document comes to.
pub fn lines_of(alloc: Global, files: &[Output], root: &Path) -> Result<Lines, Stop> {
    let mut known = Rows::new(alloc);
    for _ in 0..200 {
        match expand_known(alloc, root, &known)? {
            Turned::Whole(lines) => return checked_copy(alloc, &lines),
            Turned::Need(paths) => answer(alloc, files, &mut known, paths.items())?,
        }
    }
    Err(Stop::Wrong(Wrong::Line("the document wants too many files")))
}
