//! The files of the disk. It tells nothing of what it holds.
ghost use Rattle.std.specs.Prelude.{◌≡◌, None};

use crate::outside::{Got, Tree, TreeFailed};
use crate::path::Path;
use crate::text::Text;
use std::io::{self, ErrorKind, Read};
use std::rt::Runtime;
use std::{fs, str};

/// Reads below the current folder. What is no regular file (a folder, a pipe, a device) is `Absent`
/// and is never opened; so is a missing file or folder, and a name that the system can't have.
#[derive(Drop)]
pub struct DiskTree<R: Runtime + AllocGlobal> {
    rt: R,
    faults: u64,
}

impl<R: Runtime + AllocGlobal> DiskTree<R> {
    /// The tree of the current folder.
    pub fn new(rt: R) -> DiskTree<R>
        ensures { ⟦<DiskTree<R> as Tree>⟧.faults result ≡ 0 }
    {
        DiskTree { rt, faults: 0 }
    }
}

const BLOCK: usize = 16384;

// All bytes of a reader, or more than the limit of them.
fn read_bytes<R: Read + Drop>(bytes: &mut Vec<u8>, reader: &mut R, limit: usize) -> io::Result<()> {
    let mut block = [0; BLOCK];
    for _ in 0..u64::MAX {
        let count = reader.read(&mut block)?;
        if count == 0 {
            return Ok(());
        }
        bytes.extend_from_slice(&block[..count])?;
        if bytes.len() > limit {
            return Ok(());
        }
    }
    Ok(())
}

fn read_file<R: Runtime + AllocGlobal>(rt: &R, path: &Path, limit: u64) -> io::Result<Vec<u8>> {
    let name = match str::from_utf8(path.bytes()) {
        Ok(name) => name,
        Err(_) => return Err(ErrorKind::NotFound.into()),
    };
    let found = fs::metadata(rt, name)?;
    if !found.is_file() {
        return Err(ErrorKind::NotFound.into());
    }
    let mut file = fs::open(rt, name)?;
    let mut bytes = Vec::new(rt.alloc());
    bytes.reserve(found.len().min(limit) as usize)?;
    read_bytes(&mut bytes, &mut file, limit as usize)?;
    Ok(bytes)
}

impl<R: Runtime + AllocGlobal> Tree for DiskTree<R> {
    ghost held = { λ t. None };

    ghost reads = { λ t. None };

    ghost faults = { λ t. t.faults };

    fn read(&mut self, path: &Path, limit: u64) -> Result<Got, TreeFailed> {
        match read_file(&self.rt, path, limit) {
            Ok(bytes) => {
                if bytes.len() as u64 > limit {
                    return Ok(Got::TooLong);
                }
                match Text::from_vec_shared(self.rt.alloc(), bytes) {
                    Ok(text) => Ok(Got::File(text)),
                    Err(_) => Err(TreeFailed::WantOfMemory),
                }
            }
            Err(e) => match e.kind() {
                ErrorKind::NotFound
                | ErrorKind::IsADirectory
                | ErrorKind::NotADirectory
                | ErrorKind::InvalidFilename => Ok(Got::Absent),
                ErrorKind::OutOfMemory => Err(TreeFailed::WantOfMemory),
                _ => {
                    self.faults = self.faults.saturating_add(1);
                    Err(TreeFailed::Failed)
                }
            },
        }
    }
}
