//! A tree in memory that never fails, and looks its files up in a table.
ghost use Rattle.std.specs.Prelude.{◌≡◌, [], IfOk, OnOk, OnErr};
ghost use Rattle.build_base.specs.MemoryTree.{file_at, with_file, without_file};
ghost use Rattle.sure_objects.specs.Files.{found_in};

use build_base::memory_tree::{Held, got_of, note};
use build_base::{Got, Path, Rows, Same, Text, Tree, TreeFailed, WantOfMemory};
use std::alloc::Global;
use std::collections::BTreeMap;

/// Files in memory, of which each call answers where there is memory.
#[derive(Drop)]
pub struct TabledTree {
    alloc: Global,
    files: BTreeMap<Path, Text>,
    reads: Rows<Path>,
}

// Makes these bytes the file at the path.
fn put_in(files: &mut BTreeMap<Path, Text>, path: Path, bytes: Text) -> Result<(), WantOfMemory>
    ensures ok { OnOk result (found_in files.new.entries
        ≡ with_file (found_in files.old.entries) path bytes) }
    ensures err { OnErr result (files.new.entries ≡ files.old.entries) }
{
    match files.insert(path, bytes) {
        Ok(_) => Ok(()),
        Err(_) => Err(WantOfMemory),
    }
}

fn put_copy(
    alloc: Global,
    files: &mut BTreeMap<Path, Text>,
    file: &Held,
) -> Result<(), WantOfMemory>
    ensures { OnOk result (found_in files.new.entries
        ≡ with_file (found_in files.old.entries) file.now.path file.now.bytes) }
{
    let path = file.path.copy(alloc)?;
    let bytes = file.bytes.copy(alloc)?;
    put_in(files, path, bytes)?;
    Ok(())
}

// The table of these files, from the last one on, so that the first of two of one path counts.
fn table_of(alloc: Global, files: &[Held]) -> Result<BTreeMap<Path, Text>, WantOfMemory>
    ensures { IfOk result (λ table. found_in table.entries ≡ file_at files.now) }
{
    let mut table = BTreeMap::new(alloc);
    let mut left = files.len();
    while left > 0 {
        left -= 1;
        put_copy(alloc, &mut table, &files[left])?;
    }
    Ok(table)
}

impl TabledTree {
    /// A tree of these files, where there is memory for their table.
    pub fn of(alloc: Global, files: &[Held]) -> Result<TabledTree, WantOfMemory>
        ensures held { IfOk result (λ t. found_in t.files.entries ≡ file_at files.now) }
        ensures reads { IfOk result (λ t. t.reads ≡ []) }
    {
        let files = table_of(alloc, files)?;
        Ok(TabledTree {
            alloc,
            files,
            reads: Rows::new(alloc),
        })
    }

    /// Makes these bytes the file at the path.
    pub fn put(&mut self, path: Path, bytes: Text) -> Result<(), WantOfMemory>
        ensures ok { OnOk result (found_in self.new.files.entries
            ≡ with_file (found_in self.old.files.entries) path bytes) }
        ensures err { OnErr result (found_in self.new.files.entries
            ≡ found_in self.old.files.entries) }
        ensures reads { self.new.reads ≡ self.old.reads }
    {
        put_in(&mut self.files, path, bytes)
    }

    /// Takes the file at the path out, if there is one.
    pub fn drop_file(&mut self, path: &Path)
        ensures held { found_in self.new.files.entries
            ≡ without_file (found_in self.old.files.entries) path.now }
        ensures reads { self.new.reads ≡ self.old.reads }
    {
        self.files.remove(path);
    }

    /// The paths of the calls that answered, in order.
    pub fn reads(&self) -> &[Path]
        ensures { result.now ≡ self.now.reads }
    {
        self.reads.items()
    }
}

impl Tree for TabledTree {
    ghost use Rattle.std.specs.Prelude.{Some};
    ghost use Rattle.sure_objects.specs.Files.{found_in};

    ghost held = { λ t. Some (found_in t.files.entries) };

    ghost reads = { λ t. Some t.reads };

    ghost faults = { λ t. 0 };

    fn read(&mut self, path: &Path, limit: u64) -> Result<Got, TreeFailed> {
        let got = match got_of(self.alloc, self.files.get(path), limit) {
            Ok(got) => got,
            Err(_) => return Err(TreeFailed::WantOfMemory),
        };
        match note(self.alloc, &mut self.reads, path) {
            Ok(()) => Ok(got),
            Err(_) => Err(TreeFailed::WantOfMemory),
        }
    }
}
