//! A tree in memory, which fails at the calls of a list.
ghost use Rattle.std.specs.Prelude.{◌≡◌, [], Some, ◌++◌, ◌∷◌, IfOk, OnOk, OnErr};
ghost use Rattle.build_base.specs.Outside.{got_of, IsWithin, TreeCause, next_call};
ghost use Rattle.build_base.specs.MemoryTree.{file_at, with_file, without_file, is_failing, FailsWhere};
ghost use Rattle.std.specs.Prelude.{IfSome, nat_eq};
ghost use Rattle.std.specs.List.{position};
ghost use Rattle.std.specs.Cmp.Lexicographic.{pointwise};
ghost use Rattle.std.specs.Option.{option_copied};

use crate::outside::{Got, Tree, TreeFailed};
use crate::path::Path;
use crate::rows::Rows;
use crate::same::Same;
use crate::text::{Text, WantOfMemory};
use std::alloc::Global;

/// A file and its bytes.
#[derive(Debug, Drop)]
pub struct Held {
    pub path: Path,
    pub bytes: Text,
}

/// Files in memory. The first of two files of one path counts.
#[derive(Drop)]
pub struct MemoryTree {
    alloc: Global,
    files: Rows<Held>,
    fails: Rows<u64>,
    calls: u64,
    faults: u64,
    reads: Rows<Path>,
}

impl MemoryTree {
    /// A tree of these files, whose calls of these numbers, from 1, fail.
    pub fn new(alloc: Global, files: Rows<Held>, fails: Rows<u64>) -> MemoryTree
        ensures held { ⟦<MemoryTree as Tree>⟧.held result ≡ Some (file_at files) }
        ensures reads { ⟦<MemoryTree as Tree>⟧.reads result ≡ Some [] }
        ensures faults { ⟦<MemoryTree as Tree>⟧.faults result ≡ 0 }
        ensures fails { result.fails ≡ fails }
        ensures calls { result.calls ≡ 0 }
    {
        MemoryTree {
            alloc,
            files,
            fails,
            calls: 0,
            faults: 0,
            reads: Rows::new(alloc),
        }
    }
}

impl MemoryTree {
    /// Makes these bytes the file at the path.
    pub fn put(&mut self, path: Path, bytes: Text) -> Result<(), WantOfMemory>
        ensures ok { OnOk result (IfSome (⟦<MemoryTree as Tree>⟧.held self.old) (λ files.
            ⟦<MemoryTree as Tree>⟧.held self.new ≡ Some (with_file files path bytes))) }
        ensures err { OnErr result (⟦<MemoryTree as Tree>⟧.held self.new
            ≡ ⟦<MemoryTree as Tree>⟧.held self.old) }
        ensures reads { ⟦<MemoryTree as Tree>⟧.reads self.new
            ≡ ⟦<MemoryTree as Tree>⟧.reads self.old }
        ensures faults { ⟦<MemoryTree as Tree>⟧.faults self.new
            ≡ ⟦<MemoryTree as Tree>⟧.faults self.old }
        ensures fails { self.new.fails ≡ self.old.fails }
        ensures calls { self.new.calls ≡ self.old.calls }
    {
        put_in(&mut self.files, path, bytes)
    }

    /// Takes the file at the path out, if there is one.
    pub fn drop_file(&mut self, path: &Path)
        ensures held { IfSome (⟦<MemoryTree as Tree>⟧.held self.old) (λ files.
            ⟦<MemoryTree as Tree>⟧.held self.new ≡ Some (without_file files path.now)) }
        ensures reads { ⟦<MemoryTree as Tree>⟧.reads self.new
            ≡ ⟦<MemoryTree as Tree>⟧.reads self.old }
        ensures faults { ⟦<MemoryTree as Tree>⟧.faults self.new
            ≡ ⟦<MemoryTree as Tree>⟧.faults self.old }
        ensures fails { self.new.fails ≡ self.old.fails }
        ensures calls { self.new.calls ≡ self.old.calls }
    {
        drop_from(&mut self.files, path);
    }

    /// The paths of the calls that answered, in order.
    pub fn reads(&self) -> &[Path]
        ensures { ⟦<MemoryTree as Tree>⟧.reads self.now ≡ Some result.now }
    {
        self.reads.items()
    }
}

fn put_in(files: &mut Rows<Held>, path: Path, bytes: Text) -> Result<(), WantOfMemory>
    ensures ok { OnOk result (file_at files.new ≡ with_file (file_at files.old) path bytes) }
    ensures err { OnErr result (files.new ≡ files.old) }
{
    match place_of(files.items(), &path) {
        Some(place) => {
            files.set(place, Held { path, bytes });
            Ok(())
        }
        None => files.push(Held { path, bytes }),
    }
}

fn drop_from(files: &mut Rows<Held>, path: &Path)
    ensures { file_at files.new ≡ without_file (file_at files.old) path.now }
{
    files.retain(|entry| entry.path != *path);
}

fn place_of(files: &[Held], path: &Path) -> Option<usize>
    ensures { result ≡ position (λ entry. pointwise nat_eq entry.path path.now) files.now }
{
    files.iter().position(|entry| entry.path == *path)
}

// What the first entry of a path holds.
fn find<'a>(files: &'a [Held], path: &Path) -> Option<&'a Text>
    ensures { option_copied result ≡ file_at files.now path.now }
{
    for entry in files {
        if entry.path == *path {
            return Some(&entry.bytes);
        }
    }
    None
}

impl Tree for MemoryTree {
    ghost held = { λ t. Some (file_at t.files) };

    ghost reads = { λ t. Some t.reads };

    ghost faults = { λ t. t.faults };

    fn read(&mut self, path: &Path, limit: u64) -> Result<Got, TreeFailed>
        ensures held { self.new.files ≡ self.old.files }
        ensures got { IfOk result (λ g. g ≡ got_of limit (file_at self.old.files path.now)) }
        ensures within { IfOk result (IsWithin limit) }
        ensures reads_ok { OnOk result (self.new.reads ≡ self.old.reads ++ path.now ∷ []) }
        ensures reads_err { OnErr result (self.new.reads ≡ self.old.reads) }
        ensures cause { TreeCause self.old.faults self.new.faults result }
        ensures calls { self.new.calls ≡ next_call self.old.calls }
        ensures fails { self.new.fails ≡ self.old.fails }
        ensures failed { FailsWhere (is_failing self.old.fails (next_call self.old.calls)) result }
    {
        self.calls = self.calls.saturating_add(1);
        if self.fails.items().contains(&self.calls) {
            self.faults = self.faults.saturating_add(1);
            return Err(TreeFailed::Failed);
        }
        let got = match got_of(self.alloc, find(self.files.items(), path), limit) {
            Ok(got) => got,
            Err(_) => return Err(TreeFailed::WantOfMemory),
        };
        match note(self.alloc, &mut self.reads, path) {
            Ok(()) => Ok(got),
            Err(_) => Err(TreeFailed::WantOfMemory),
        }
    }
}

/// What a read of a file that was found, or of none, gives: a copy of its bytes, if there are at
/// most `limit`.
pub fn got_of(alloc: Global, found: Option<&Text>, limit: u64) -> Result<Got, WantOfMemory>
    ensures { IfOk result (λ g. g ≡ got_of limit (option_copied found.entry)) }
{
    match found {
        None => Ok(Got::Absent),
        Some(text) => {
            if text.bytes().len() as u64 <= limit {
                Ok(Got::File(text.copy(alloc)?))
            } else {
                Ok(Got::TooLong)
            }
        }
    }
}

/// Adds a copy of the path of a call that answered.
pub fn note(alloc: Global, reads: &mut Rows<Path>, path: &Path) -> Result<(), WantOfMemory>
    ensures ok { OnOk result (reads.new ≡ reads.old ++ path.now ∷ []) }
    ensures err { OnErr result (reads.new ≡ reads.old) }
{
    reads.push(path.copy(alloc)?)
}
