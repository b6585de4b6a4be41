//! Files that stand ready, and how they are written: it takes no memory.
ghost use Rattle.std.specs.Prelude.{◌≡◌, ◌≤◌, ◌++◌, [], IfOk, map, length, List, ℕ};
ghost use Rattle.build_base.specs.Outside.{Cause};
ghost use Rattle.build_base.specs.Spelling.{WritesFile, Writes};
ghost use Rattle.edk_build.specs.FilePair.{output_of};

use crate::content::{Content, ContentPieces};
use build_base::{Path, Same, Sink, SinkFailed, Target, WantOfMemory};
use std::alloc::Global;
use std::marker::Model;

/// A file and what is to be written to it.
#[derive(Drop)]
pub(crate) struct FileOut<'a> {
    start: Target,
    more: Target,
    content: Content<'a>,
}

impl<'a> Model for FileOut<'a> {
    ghost use Rattle.std.specs.Prelude.{◌≡◌};
    ghost use Rattle.build_base.specs.SinkState.{path_of};
    ghost use Rattle.build_base.specs.declared.outside.Target.TheVariants.{Start, More};
    ghost use Rattle.edk_build.specs.FilePair.{FilePair};

    ghost Value = { FilePair };

    ghost view = { λ f. record { path = path_of f.start; bytes = f.content } };

    ghost invariant = { λ f. (f.start ≡ Start (path_of f.start))
        × (f.more ≡ More (path_of f.start)) };
}

impl<'a> FileOut<'a> {
    pub fn new(alloc: Global, path: Path, content: Content<'a>) -> Result<FileOut<'a>, WantOfMemory>
        ensures { IfOk result (λ f. f ≡ record { path = path; bytes = content.entry }) }
    {
        let more = Target::More(path.copy(alloc)?);
        let start = Target::Start(path);
        Ok(FileOut {
            start,
            more,
            content,
        })
    }
}

// The first piece, of no bytes where none is left.
fn first_piece<'a>(pieces: &mut ContentPieces<'a>) -> &'a [u8]
    ensures whole { pieces.old ≡ result.now ++ pieces.new }
    ensures short { length result.now ≤ 65536 }
    ensures empty { result.now ≡ [] → pieces.new ≡ [] }
{
    match pieces.next() {
        Some(piece) => piece,
        None => b"".as_slice(),
    }
}

fn write_pieces<S: Sink>(
    sink: &mut S,
    start: &Target,
    more: &Target,
    content: &Content<'_>,
) -> Result<(), SinkFailed>
    ensures written { (path : List ℕ) → start.now ≡ Target.Start path → more.now ≡ Target.More path
        →
        WritesFile (S.written sink.old) (S.written sink.new) path content.now result }
    ensures cause { Cause (S.faults sink.old) (S.faults sink.new) result }
{
    let mut pieces = content.pieces();
    let first = first_piece(&mut pieces);
    if let Err(failed) = sink.emit(start, first) {
        return Err(failed);
    }
    while let Some(piece) = pieces.next() {
        if let Err(failed) = sink.emit(more, piece) {
            return Err(failed);
        }
    }
    Ok(())
}

fn write_file<S: Sink>(sink: &mut S, out: &FileOut<'_>) -> Result<(), SinkFailed>
    ensures written { WritesFile (S.written sink.old) (S.written sink.new) out.now.path
        out.now.bytes result }
    ensures cause { Cause (S.faults sink.old) (S.faults sink.new) result }
{
    write_pieces(sink, &out.start, &out.more, &out.content)
}

/// Writes all files, in order.
pub fn write_all<S: Sink>(sink: &mut S, files: &[FileOut<'_>]) -> Result<(), SinkFailed>
    ensures written { Writes (S.written sink.old) (S.written sink.new) (map output_of files.now)
        result }
    ensures cause { Cause (S.faults sink.old) (S.faults sink.new) result }
{
    for out in files {
        if let Err(failed) = write_file(sink, out) {
            return Err(failed);
        }
    }
    Ok(())
}
