//! The files of a volume, each moved at its place.
ghost use Rattle.build_base.specs.Answer.{Answers};
ghost use Rattle.image_rebase.specs.Files.{moved_files};

use crate::file::move_file;
use build_base::{Refusal, Rows};
use doc_types::image::FileImage;
use std::alloc::Global;

/// The files, of which each starts at the place of the same number.
#[tactic(auto, unfolding(crate::specs::Files::moved_files))]
pub(crate) fn move_files(
    alloc: Global,
    ffs3: bool,
    base: u64,
    files: &[FileImage],
    starts: &[u64],
) -> Result<Rows<FileImage>, Refusal>
    ensures { Answers result (moved_files ffs3 base files.now starts.now) }
{
    let mut moved = Rows::new(alloc);
    let mut left = files;
    let mut places = starts;
    while let [file, more @ ..] = left {
        let [start, others @ ..] = places else {
            return Ok(moved);
        };
        moved.push(move_file(alloc, ffs3, base, *start, file)?)?;
        left = more;
        places = others;
    }
    Ok(moved)
}
