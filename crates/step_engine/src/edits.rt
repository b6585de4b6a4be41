//! Edits of a workspace, over which a build reads the files of a tree.
ghost use Rattle.std.specs.Prelude.{◌≡◌, IfOk, OnOk, OnErr, [], ◌∷◌, ◌++◌, Some, None};
ghost use Rattle.std.specs.Option.{option_copied};
ghost use Rattle.step_engine.specs.Edits.{last_edit};

use build_base::path::Path;
use build_base::rows::Rows;
use build_base::text::{Text, WantOfMemory};
use shared_value::Shared;
use std::alloc::Global;
use std::marker::Model;

/// What stands at a path in place of what a tree has there: bytes, or none.
#[derive(Drop)]
pub struct Edit {
    pub path: Path,
    pub bytes: Option<Shared<Text>>,
}

/// Edits of a workspace in their order, seen as the list of them. Of those of one path the last
/// counts.
#[derive(Drop)]
pub struct Edits {
    rows: Rows<Edit>,
}

impl Model for Edits {
    ghost use Rattle.std.specs.Prelude.{List};
    ghost use Rattle.step_engine.specs.declared.edits.Edit.{Edit};

    ghost Value = { List Edit };

    ghost view = { λ e. e.rows };
}

impl Edits {
    /// No edits.
    pub fn new(alloc: Global) -> Edits
        ensures { result ≡ [] }
    {
        Edits {
            rows: Rows::new(alloc),
        }
    }

    /// From now on the path has these bytes. A refusal drops them.
    pub fn put(&mut self, path: Path, bytes: Shared<Text>) -> Result<(), WantOfMemory>
        ensures ok { OnOk result (self.new ≡ self.old
            ++ (record { path = path; bytes = Some bytes }) ∷ []) }
        ensures err { OnErr result (self.new ≡ self.old) }
    {
        self.rows.push(Edit {
            path,
            bytes: Some(bytes),
        })
    }

    /// From now on there is no file at the path.
    pub fn drop_file(&mut self, path: Path) -> Result<(), WantOfMemory>
        ensures ok { OnOk result (self.new ≡ self.old ++ (record { path = path; bytes = None })
            ∷ []) }
        ensures err { OnErr result (self.new ≡ self.old) }
    {
        self.rows.push(Edit { path, bytes: None })
    }

    /// The last edit of a path, in time that grows with the list: a replay has at most 1,000 lines.
    pub fn find(&self, path: &Path) -> Option<&Edit>
        ensures { option_copied result ≡ last_edit None self.now path.now }
    {
        let mut found = None;
        let mut left = self.rows.items();
        while let [edit, rest @ ..] = left {
            if edit.path == *path {
                found = Some(edit);
            }
            left = rest;
        }
        found
    }
}
