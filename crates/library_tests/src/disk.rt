//! The adapters of the disk, in a folder of their own.
use build_base::disk_sink::DiskSink;
use build_base::disk_tree::DiskTree;
use build_base::{Got, Path, PathRefusal, Sink, Target, Tree, WantOfMemory};
use std::alloc::Global;
use std::fs;
use std::test::Fail;

fn path(alloc: Global, text: &[u8]) -> Result<Path, WantOfMemory> {
    match Path::new(alloc, text) {
        Ok(path) => Ok(path),
        Err(PathRefusal::BadPath) => Err(WantOfMemory),
        Err(PathRefusal::WantOfMemory) => Err(WantOfMemory),
    }
}

// What a read gives, where it gives no file.
#[derive(Clone, Copy, PartialEq, Eq)]
enum Given {
    SomeFile,
    Absent,
    TooLong,
    Failed,
}

fn outcome_of_read<T: Tree>(tree: &mut T, path: &Path, limit: u64) -> Given {
    match tree.read(path, limit) {
        Ok(Got::File(_)) => Given::SomeFile,
        Ok(Got::Absent) => Given::Absent,
        Ok(Got::TooLong) => Given::TooLong,
        Err(_) => Given::Failed,
    }
}

fn holds<T: Tree>(tree: &mut T, path: &Path, bytes: &[u8]) -> bool {
    match tree.read(path, 16) {
        Ok(Got::File(text)) => text.bytes() == bytes,
        _ => false,
    }
}

fn starts<S: Sink>(alloc: Global, sink: &mut S, name: &[u8], bytes: &[u8]) -> bool {
    match path(alloc, name) {
        Ok(path) => sink.emit(&Target::Start(path), bytes).is_ok(),
        Err(_) => false,
    }
}

fn goes_on<S: Sink>(alloc: Global, sink: &mut S, name: &[u8], bytes: &[u8]) -> bool {
    match path(alloc, name) {
        Ok(path) => sink.emit(&Target::More(path), bytes).is_ok(),
        Err(_) => false,
    }
}

#[test]
fn files_are_written(rt: HostRuntime) -> Result<(), Fail> {
    let alloc = rt.alloc();
    let mut sink = DiskSink::new(rt);
    let mut tree = DiskTree::new(rt);
    let file = path(alloc, b"disk_written/made/file")?;
    assert!(rt;
        starts(
            alloc,
            &mut sink,
            b"disk_written/made/file",
            b"an older and longer text"
        )
    );
    assert!(rt; starts(alloc, &mut sink, b"disk_written/made/file", b"abc"));
    assert!(rt; goes_on(alloc, &mut sink, b"disk_written/made/file", b"d"));
    assert!(rt; holds(&mut tree, &file, b"abcd"));
    assert!(rt;
        !starts(
            alloc,
            &mut sink,
            b"disk_written/made",
            b"in place of a folder"
        )
    );
    fs::remove_dir_all(&rt, "disk_written")?;
    Ok(())
}

#[test]
fn files_are_read(rt: HostRuntime) -> Result<(), Fail> {
    let alloc = rt.alloc();
    let mut sink = DiskSink::new(rt);
    let mut tree = DiskTree::new(rt);
    let folder = path(alloc, b"disk_read/made")?;
    let file = path(alloc, b"disk_read/made/file")?;
    assert!(rt; outcome_of_read(&mut tree, &file, 4) == Given::Absent);
    assert!(rt; starts(alloc, &mut sink, b"disk_read/made/file", b"abcd"));
    assert!(rt; outcome_of_read(&mut tree, &file, 4) == Given::SomeFile);
    assert!(rt; outcome_of_read(&mut tree, &file, 3) == Given::TooLong);
    assert!(rt; outcome_of_read(&mut tree, &folder, 4) == Given::Absent);
    fs::remove_dir_all(&rt, "disk_read")?;
    Ok(())
}
