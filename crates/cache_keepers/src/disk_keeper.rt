//! A file of the disk. It tells nothing of what it keeps.
ghost use Rattle.std.specs.Prelude.{◌≡◌, None};

use build_base::{Keeper, KeeperFailed, Text};
use std::fs;
use std::io::{self, ErrorKind, Read, Write};
use std::rt::Runtime;

/// Keeps its text in `.edk_steps` in the current folder. What is no regular file there keeps
/// nothing, and is never opened.
///
/// A store writes the new text to `.edk_steps.new`, which then takes the old text's place. So a
/// store that is cut, also by the end of the process, leaves the old text. What it leaves beside is
/// replaced by the next store.
#[derive(Drop)]
pub struct DiskKeeper<R: Runtime + AllocGlobal> {
    rt: R,
    faults: u64,
}

impl<R: Runtime + AllocGlobal> DiskKeeper<R> {
    /// The keeper of the current folder.
    pub fn new(rt: R) -> DiskKeeper<R>
        ensures { ⟦<DiskKeeper<R> as Keeper>⟧.faults result ≡ 0 }
    {
        DiskKeeper { rt, faults: 0 }
    }
}

const NAME: &str = ".edk_steps";

/// Where a new text stands until it is whole.
const NEW_NAME: &str = ".edk_steps.new";

/// The most bytes of a text that is loaded; a longer one is none.
const LIMIT: usize = 0x10_0000_0000;

// The bytes of the text, or more than the limit of them.
fn read_file<R: Runtime + AllocGlobal>(rt: &R) -> io::Result<Vec<u8>> {
    let found = fs::metadata(rt, NAME)?;
    if !found.is_file() {
        return Err(ErrorKind::NotFound.into());
    }
    let mut bytes = Vec::new(rt.alloc());
    bytes.reserve(found.len().min(LIMIT as u64) as usize)?;
    read_bytes(rt, &mut bytes)?;
    Ok(bytes)
}

fn read_bytes<R: Runtime>(rt: &R, bytes: &mut Vec<u8>) -> io::Result<()> {
    let file = fs::open(rt, NAME)?;
    file.take(LIMIT as u64 + 1).read_to_end(bytes)?;
    Ok(())
}

// Whether something stands there that is no regular file.
fn is_other<R: Runtime>(rt: &R, name: &str) -> bool {
    match fs::metadata(rt, name) {
        Ok(found) => !found.is_file(),
        Err(_) => false,
    }
}

fn write_new<R: Runtime>(rt: &R, bytes: &[u8]) -> io::Result<()> {
    fs::create(rt, NEW_NAME)?.write_all(bytes)?;
    fs::rename(rt, NEW_NAME, NAME)
}

// Puts these bytes in the old text's place, or leaves that as it is.
fn write_file<R: Runtime>(rt: &R, bytes: &[u8]) -> io::Result<()> {
    if is_other(rt, NAME) || is_other(rt, NEW_NAME) {
        return Err(ErrorKind::AlreadyExists.into());
    }
    let written = write_new(rt, bytes);
    if written.is_err() {
        // A text that is cut only takes room on a disk that may be full.
        let _ = fs::remove_file(rt, NEW_NAME);
    }
    written
}

impl<R: Runtime + AllocGlobal> Keeper for DiskKeeper<R> {
    ghost kept = { λ k. None };

    ghost faults = { λ k. k.faults };

    fn load(&mut self) -> Result<Option<Text>, KeeperFailed> {
        match read_file(&self.rt) {
            Ok(bytes) => {
                if bytes.len() > LIMIT {
                    return Ok(None);
                }
                match Text::from_vec_shared(self.rt.alloc(), bytes) {
                    Ok(text) => Ok(Some(text)),
                    Err(_) => Err(KeeperFailed::WantOfMemory),
                }
            }
            Err(error) => match error.kind() {
                ErrorKind::NotFound => Ok(None),
                ErrorKind::OutOfMemory => Err(KeeperFailed::WantOfMemory),
                _ => {
                    self.faults = self.faults.saturating_add(1);
                    Err(KeeperFailed::Failed)
                }
            },
        }
    }

    fn store(&mut self, bytes: &[u8]) -> Result<(), KeeperFailed> {
        match write_file(&self.rt, bytes) {
            Ok(()) => Ok(()),
            Err(_) => {
                self.faults = self.faults.saturating_add(1);
                Err(KeeperFailed::Failed)
            }
        }
    }
}
