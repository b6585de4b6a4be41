//! A tree in memory that never fails.
ghost use Rattle.std.specs.Prelude.{◌≡◌, [], Some, IfSome, OnOk, OnErr};
ghost use Rattle.build_base.specs.MemoryTree.{file_at, with_file, without_file};

use crate::listed_tree::ListedTree;
use crate::tabled_tree::TabledTree;
use build_base::memory_tree::Held;
use build_base::{Got, Path, Rows, Text, Tree, TreeFailed, WantOfMemory};
use std::alloc::Global;

pub enum Forms {
    Listed(ListedTree),
    Tabled(TabledTree),
}

// Written out, so that a caller that lets a tree go has one call here and not a case for each
// variant.
impl Drop for Forms {
    fn drop(self) {
        match self {
            Forms::Listed(_tree) => {}
            Forms::Tabled(_tree) => {}
        }
    }
}

/// Files in memory, of which each call answers where there is memory. The first of two files of one
/// path counts. A path is looked up in a table, where there was memory for one when the tree was
/// made.
#[derive(Drop)]
pub struct SureTree {
    form: Forms,
}

impl SureTree {
    /// A tree of these files.
    pub fn new(alloc: Global, files: Rows<Held>) -> SureTree
        ensures held { ⟦<SureTree as Tree>⟧.held result ≡ Some (file_at files) }
        ensures reads { ⟦<SureTree as Tree>⟧.reads result ≡ Some [] }
    {
        let form = match TabledTree::of(alloc, files.items()) {
            Ok(tree) => Forms::Tabled(tree),
            Err(_) => Forms::Listed(ListedTree::new(alloc, files)),
        };
        SureTree { form }
    }

    /// Makes these bytes the file at the path.
    pub fn put(&mut self, path: Path, bytes: Text) -> Result<(), WantOfMemory>
        ensures ok { OnOk result (IfSome (⟦<SureTree as Tree>⟧.held self.old) (λ files.
            ⟦<SureTree as Tree>⟧.held self.new ≡ Some (with_file files path bytes))) }
        ensures err { OnErr result (⟦<SureTree as Tree>⟧.held self.new
            ≡ ⟦<SureTree as Tree>⟧.held self.old) }
        ensures reads { ⟦<SureTree as Tree>⟧.reads self.new ≡ ⟦<SureTree as Tree>⟧.reads self.old }
    {
        match &mut self.form {
            Forms::Listed(tree) => tree.put(path, bytes),
            Forms::Tabled(tree) => tree.put(path, bytes),
        }
    }

    /// Takes the file at the path out, if there is one.
    pub fn drop_file(&mut self, path: &Path)
        ensures held { IfSome (⟦<SureTree as Tree>⟧.held self.old) (λ files.
            ⟦<SureTree as Tree>⟧.held self.new ≡ Some (without_file files path.now)) }
        ensures reads { ⟦<SureTree as Tree>⟧.reads self.new ≡ ⟦<SureTree as Tree>⟧.reads self.old }
    {
        match &mut self.form {
            Forms::Listed(tree) => tree.drop_file(path),
            Forms::Tabled(tree) => tree.drop_file(path),
        }
    }

    /// The paths of the calls that answered, in order.
    pub fn reads(&self) -> &[Path]
        ensures { ⟦<SureTree as Tree>⟧.reads self.now ≡ Some result.now }
    {
        match &self.form {
            Forms::Listed(tree) => tree.reads(),
            Forms::Tabled(tree) => tree.reads(),
        }
    }
}

impl Tree for SureTree {
    ghost use Rattle.std.specs.Prelude.{Some};
    ghost use Rattle.sure_objects.specs.Either.{held_of, reads_of};

    ghost held = { λ t. Some (held_of t.form) };

    ghost reads = { λ t. Some (reads_of t.form) };

    ghost faults = { λ t. 0 };

    fn read(&mut self, path: &Path, limit: u64) -> Result<Got, TreeFailed> {
        match &mut self.form {
            Forms::Listed(tree) => tree.read(path, limit),
            Forms::Tabled(tree) => tree.read(path, limit),
        }
    }
}
