//! The folder of a platform's outputs.
ghost use Rattle.std.specs.Prelude.{◌≡◌, IfOk};
ghost use Rattle.build_base.specs.Path.{IsPathField, path_field};

use build_base::{Path, PathRefusal, WantOfMemory};
use std::alloc::Global;
use std::marker::Model;

/// A folder that a document names: a path of at most 512 bytes.
#[derive(Drop)]
pub struct OutputFolder {
    path: Path,
}

impl Model for OutputFolder {
    ghost use Rattle.std.specs.Prelude.{List, ℕ};

    ghost Value = { List ℕ };

    ghost use Rattle.build_base.specs.Path.{IsPathField};

    ghost view = { λ f. f.path };

    ghost invariant = { λ f. IsPathField f.path };
}

/// The folder that a text names, or nothing where it names none.
pub fn output_folder(alloc: Global, text: &[u8]) -> Result<Option<OutputFolder>, WantOfMemory>
    ensures { IfOk result (λ f. f ≡ path_field text.now) }
{
    match Path::new(alloc, text) {
        Ok(path) => Ok(Some(OutputFolder { path })),
        Err(PathRefusal::BadPath) => Ok(None),
        Err(PathRefusal::WantOfMemory) => Err(WantOfMemory),
    }
}

impl OutputFolder {
    /// Its path.
    pub fn into_path(self) -> Path
        ensures path { result ≡ self }
        ensures form { IsPathField result }
    {
        self.path
    }
}
