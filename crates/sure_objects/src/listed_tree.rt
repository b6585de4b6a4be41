//! A tree in memory that never fails, and looks through its files.
ghost use Rattle.std.specs.Prelude.{◌≡◌, [], Some, IfSome, OnOk, OnErr};
ghost use Rattle.build_base.specs.MemoryTree.{file_at, with_file, without_file};

use build_base::memory_tree::{Held, MemoryTree};
use build_base::{Got, Path, Rows, Text, Tree, TreeFailed, WantOfMemory};
use std::alloc::Global;
use std::marker::Model;

/// Files in memory, of which each call answers where there is memory. The first of two files of one
/// path counts.
#[derive(Drop)]
pub struct ListedTree {
    tree: MemoryTree,
}

impl Model for ListedTree {
    ghost use Rattle.std.specs.Prelude.{◌≡◌, []};
    ghost use Rattle.build_base.specs.declared.memory_tree.MemoryTree.{MemoryTree as Kept};

    ghost Value = { Kept };

    ghost view = { λ t. t.tree };

    ghost invariant = { λ t. t.tree.fails ≡ [] };
}

impl ListedTree {
    /// A tree of these files.
    pub fn new(alloc: Global, files: Rows<Held>) -> ListedTree
        ensures held { ⟦<ListedTree as Tree>⟧.held result ≡ Some (file_at files) }
        ensures reads { ⟦<ListedTree as Tree>⟧.reads result ≡ Some [] }
    {
        ListedTree {
            tree: MemoryTree::new(alloc, files, Rows::new(alloc)),
        }
    }

    /// Makes these bytes the file at the path.
    pub fn put(&mut self, path: Path, bytes: Text) -> Result<(), WantOfMemory>
        ensures ok { OnOk result (IfSome (⟦<ListedTree as Tree>⟧.held self.old) (λ files.
            ⟦<ListedTree as Tree>⟧.held self.new ≡ Some (with_file files path bytes))) }
        ensures err { OnErr result (⟦<ListedTree as Tree>⟧.held self.new
            ≡ ⟦<ListedTree as Tree>⟧.held self.old) }
        ensures reads { ⟦<ListedTree as Tree>⟧.reads self.new
            ≡ ⟦<ListedTree as Tree>⟧.reads self.old }
    {
        self.tree.put(path, bytes)
    }

    /// Takes the file at the path out, if there is one.
    pub fn drop_file(&mut self, path: &Path)
        ensures held { IfSome (⟦<ListedTree as Tree>⟧.held self.old) (λ files.
            ⟦<ListedTree as Tree>⟧.held self.new ≡ Some (without_file files path.now)) }
        ensures reads { ⟦<ListedTree as Tree>⟧.reads self.new
            ≡ ⟦<ListedTree as Tree>⟧.reads self.old }
    {
        self.tree.drop_file(path);
    }

    /// The paths of the calls that answered, in order.
    pub fn reads(&self) -> &[Path]
        ensures { ⟦<ListedTree as Tree>⟧.reads self.now ≡ Some result.now }
    {
        self.tree.reads()
    }
}

impl Tree for ListedTree {
    ghost use Rattle.std.specs.Prelude.{Some};
    ghost use Rattle.build_base.specs.MemoryTree.{file_at};

    ghost held = { λ t. Some (file_at t.files) };

    ghost reads = { λ t. Some t.reads };

    ghost faults = { λ t. 0 };

    fn read(&mut self, path: &Path, limit: u64) -> Result<Got, TreeFailed> {
        self.tree.read(path, limit)
    }
}
