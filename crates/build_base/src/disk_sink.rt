//! The files of the disk and the standard streams, to be written. It tells nothing of what was
//! written.
ghost use Rattle.std.specs.Prelude.{◌≡◌, None};

use crate::outside::{Sink, SinkFailed, Target};
use crate::path::Path;
use crate::same::Same;
use std::fs::{self, Files, OpenOptions};
use std::io::{self, ErrorKind, Write};
use std::rt::Runtime;
use std::str;

/// The file that was written last, at its end.
#[derive(Drop)]
struct Opened<F: Drop> {
    path: Path,
    file: F,
}

/// Writes below the current folder, and makes the folders that are missing. The file that it wrote
/// last stays open, so that the pieces of a file open it once.
#[derive(Drop)]
pub struct DiskSink<R: Runtime + AllocGlobal> {
    rt: R,
    last: Option<Opened<R::File>>,
    faults: u64,
}

impl<R: Runtime + AllocGlobal> DiskSink<R> {
    /// The sink of the current folder.
    pub fn new(rt: R) -> DiskSink<R>
        ensures { ⟦<DiskSink<R> as Sink>⟧.faults result ≡ 0 }
    {
        DiskSink {
            rt,
            last: None,
            faults: 0,
        }
    }
}

// The folder of a file, as a text of bytes: all up to its last slash.
fn folder_of(path: &[u8]) -> &[u8] {
    match path.iter().rposition(|byte| *byte == b'/') {
        Some(end) => path.get(..end).unwrap_or(b"".as_slice()),
        None => b"".as_slice(),
    }
}

// Makes a folder. One that is there stays as it is.
fn make_folder<R: Runtime + AllocGlobal>(rt: &R, folder: &str) -> io::Result<()> {
    match fs::create_dir(rt, folder) {
        Err(error) if error.kind() == ErrorKind::AlreadyExists => Ok(()),
        made => made,
    }
}

// The folder that ends in front of `end`, where a slash stands there.
fn folder_above(folder: &str, end: usize) -> Option<&str> {
    match folder.split_at_checked(end) {
        Some((above, rest)) if rest.starts_with('/') => Some(above),
        _ => None,
    }
}

// Where the lowest folder above ends that is there or can be made, or 0.
fn lowest_made<R: Runtime + AllocGlobal>(rt: &R, folder: &str) -> usize {
    for end in (1..folder.len()).rev() {
        if let Some(above) = folder_above(folder, end) {
            if make_folder(rt, above).is_ok() {
                return end;
            }
        }
    }
    0
}

// Makes a folder, and those above it that are missing. It looks from the lowest one up, so a
// folder deep in a tree costs only the folders that it adds.
fn make_folders<R: Runtime + AllocGlobal>(rt: &R, folder: &str) -> io::Result<()> {
    if make_folder(rt, folder).is_ok() {
        return Ok(());
    }
    let made = lowest_made(rt, folder);
    for end in made.saturating_add(1)..folder.len() {
        if let Some(above) = folder_above(folder, end) {
            make_folder(rt, above)?;
        }
    }
    make_folder(rt, folder)
}

// An empty file of a name, in the folder, which is made where it is missing.
fn create_in<R: Runtime + AllocGlobal>(rt: &R, folder: &str, name: &str) -> io::Result<R::File> {
    match fs::create(rt, name) {
        Err(error) if error.kind() == ErrorKind::NotFound && !folder.is_empty() => {
            make_folders(rt, folder)?;
            fs::create(rt, name)
        }
        made => made,
    }
}

// A new file of the path, which is made empty where it is there.
fn start_file<R: Runtime + AllocGlobal>(rt: &R, path: &Path) -> io::Result<R::File> {
    match (
        str::from_utf8(folder_of(path.bytes())),
        str::from_utf8(path.bytes()),
    ) {
        (Ok(folder), Ok(name)) => create_in(rt, folder, name),
        _ => Err(ErrorKind::NotFound.into()),
    }
}

// The file of the path, to be written behind its end.
fn further_file<R: Runtime + AllocGlobal>(rt: &R, path: &Path) -> io::Result<R::File> {
    match str::from_utf8(path.bytes()) {
        Ok(name) => OpenOptions::new().append(true).open(rt, name),
        Err(_) => Err(ErrorKind::NotFound.into()),
    }
}

fn write_err<R: Runtime>(rt: &R, bytes: &[u8]) -> io::Result<()> {
    match str::from_utf8(bytes) {
        Ok(text) => rt.eprint(text),
        Err(_) => Err(ErrorKind::InvalidData.into()),
    }
}

impl<R: Runtime + AllocGlobal> DiskSink<R> {
    // Keeps a file open, unless memory is wanting for its path.
    fn keep(&mut self, path: &Path, file: R::File)
        ensures { self.new.faults ≡ self.old.faults }
    {
        if let Ok(path) = path.copy(self.rt.alloc()) {
            self.last = Some(Opened { path, file });
        }
    }

    fn start(&mut self, path: &Path, bytes: &[u8]) -> io::Result<()>
        ensures { self.new.faults ≡ self.old.faults }
    {
        self.last = None;
        let mut file = start_file(&self.rt, path)?;
        file.write_all(bytes)?;
        self.keep(path, file);
        Ok(())
    }

    fn extend(&mut self, path: &Path, bytes: &[u8]) -> io::Result<()>
        ensures { self.new.faults ≡ self.old.faults }
    {
        if let Some(last) = &mut self.last {
            if last.path.bytes() == path.bytes() {
                return last.file.write_all(bytes);
            }
        }
        let mut file = further_file(&self.rt, path)?;
        file.write_all(bytes)?;
        self.keep(path, file);
        Ok(())
    }

    fn emit_to(&mut self, target: &Target, bytes: &[u8]) -> io::Result<()>
        ensures { self.new.faults ≡ self.old.faults }
    {
        match target {
            Target::Start(path) => self.start(path, bytes),
            Target::More(path) => self.extend(path, bytes),
            Target::Out => io::writer(&self.rt).write_all(bytes),
            Target::Err => write_err(&self.rt, bytes),
        }
    }
}

impl<R: Runtime + AllocGlobal> Sink for DiskSink<R> {
    ghost written = { λ s. None };

    ghost faults = { λ s. s.faults };

    fn emit(&mut self, target: &Target, bytes: &[u8]) -> Result<(), SinkFailed> {
        match self.emit_to(target, bytes) {
            Ok(()) => Ok(()),
            Err(_) => {
                self.faults = self.faults.saturating_add(1);
                Err(SinkFailed)
            }
        }
    }
}
