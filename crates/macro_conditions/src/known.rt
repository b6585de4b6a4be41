//! What is known of files, and where an included file is found.
ghost use Rattle.std.specs.Prelude.{◌≡◌, IfOk};
ghost use Rattle.std.specs.Option.{option_map};
ghost use Rattle.build_base.specs.Path.{folder_of};
ghost use Rattle.macro_conditions.specs.Sources.{answer, in_folder, places, at_place, located};
ghost use Rattle.macro_conditions.specs.Work.{located_view};

use build_base::{Got, Path, Same, Text, WantOfMemory};
use std::alloc::Global;

/// What a read of a path gave.
#[derive(Drop)]
pub struct Known {
    pub path: Path,
    pub got: Got,
}

// What is known of the first place that has a file.
#[derive(Drop)]
pub(crate) enum Located<'a> {
    Wanted(Path),
    Missing,
    OverLimit(Path),
    There(Path, &'a Text),
}

// The first answer for a path.
#[tactic(auto, unfolding(crate::specs::Sources::answer))]
pub(crate) fn answer<'a>(known: &'a [Known], path: &Path) -> Option<&'a Got>
    ensures { option_map (λ g. g.now) result ≡ answer known.now path.now }
{
    for entry in known {
        if entry.path.bytes() == path.bytes() {
            return Some(&entry.got);
        }
    }
    None
}

fn locate_at<'a>(known: &'a [Known], path: Path) -> Located<'a>
    ensures { located_view result ≡ at_place path (answer known.now path) }
{
    match answer(known, &path) {
        None => Located::Wanted(path),
        Some(Got::Absent) => Located::Missing,
        Some(Got::TooLong) => Located::OverLimit(path),
        Some(Got::File(text)) => Located::There(path, text),
    }
}

#[tactic(auto, using(crate::proofs::SourceLemmas::or_missing))]
fn locate_in_folder<'a>(
    alloc: Global,
    known: &'a [Known],
    from: &Path,
    path: &Path,
) -> Result<Located<'a>, WantOfMemory>
    ensures { IfOk result (λ l. located_view l
        ≡ located (answer known.now) (in_folder (folder_of from.now) path.now)) }
{
    match from.folder(alloc)? {
        None => Ok(Located::Missing),
        Some(folder) => {
            if folder.bytes().len() + 1 + path.bytes().len() > 2048 {
                return Ok(Located::Missing);
            }
            Ok(locate_at(known, folder.join(alloc, path)?))
        }
    }
}

// What is known of a file that another one includes: at the workspace's root, then in that one's
// folder.
#[tactic(auto, unfolding(crate::specs::Sources::places))]
pub(crate) fn locate<'a>(
    alloc: Global,
    known: &'a [Known],
    from: &Path,
    path: &Path,
) -> Result<Located<'a>, WantOfMemory>
    ensures { IfOk result (λ l. located_view l
        ≡ located (answer known.now) (places from.now path.now)) }
{
    match locate_at(known, path.copy(alloc)?) {
        Located::Missing => locate_in_folder(alloc, known, from, path),
        found => Ok(found),
    }
}
