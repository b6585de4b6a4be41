//! The files of a volume in their places, and the pad files between them.
ghost use Rattle.std.specs.Prelude.{◌≡◌, ◌≤◌, ◌<◌, ◌+◌, ◌^◌, ◌*◌, ◌⊎◌, length, OnOk, None, is_some, true, not, ◌&&◌, nat_lt};
ghost use Rattle.build_base.specs.Answer.{Checks};
ghost use Rattle.build_base.specs.Pieces.{put_pieces};
ghost use Rattle.build_base.specs.Runs.{free_byte};
ghost use Rattle.ffs_sections.specs.Alignment.{IsAlignment};
ghost use Rattle.ffs_sections.specs.Standard.{FILE_LIMIT};
ghost use Rattle.fv_compose.specs.Place.{align_up};
ghost use Rattle.fv_compose.specs.Files.{is_top, top_of, plain_files, bytes_in, top_bytes, placed_pieces, files_pieces, end_of, top_pieces, pad_fault, pads_fault, top_pad_fault, AreAligned};
ghost use Rattle.fv_compose.specs.Turns.{pointed, own_start, own_starts, own_pad_fault, own_pieces, own_bytes};
ghost use Rattle.fv_compose.specs.Volume.{taken_by, holds};

use crate::layout::next_end;
use crate::pad::put_pad;
use crate::place::align_up;
use build_base::fault_codes::PAD_TOO_LONG;
use build_base::{Refusal, RunWriter, Same, Text, WantOfMemory};
use doc_types::image::FileImage;
use ffs_sections::faults::fault_with_size;
use ffs_sections::standard::FILE_LIMIT;
use std::alloc::Global;

/// EFI_FFS_VOLUME_TOP_FILE_GUID.
static TOP_NAME: [u8; 16] = [
    0x2E, 0x06, 0xA0, 0x1B, 0x79, 0xC7, 0x82, 0x45, 0x85, 0x66, 0x33, 0x6A, 0xE8, 0xF7, 0x8F, 0x09,
];

/// Whether a file is the volume top file.
#[tactic(auto, unfolding(crate::specs::Files::is_top))]
pub(crate) fn is_top(file: &FileImage) -> bool
    ensures { result ≡ is_top file.now }
{
    file.guid.0 == TOP_NAME
}

/// The top file, where there is one.
pub(crate) fn top_of(files: &[FileImage]) -> Option<&FileImage>
    ensures { pointed result ≡ top_of files.now }
{
    for file in files {
        if is_top(file) {
            return Some(file);
        }
    }
    None
}

// Whether a pad file of this size is too long for its file system.
fn is_long(ffs3: bool, pad: u64) -> bool
    ensures { result ≡ (not ffs3 && nat_lt FILE_LIMIT pad) }
{
    !ffs3 && pad > FILE_LIMIT
}

// The fault of a pad before a start that is too long.
#[tactic(auto, unfolding(crate::specs::Files::pad_fault))]
fn check_pad(
    alloc: Global,
    ffs3: bool,
    at: u128,
    start: u128,
    file: &FileImage,
) -> Result<(), Refusal>
    requires after { align_up 8 at ≤ start }
    requires near { start ≤ 2 ^ 28 }
    ensures { Checks result (pad_fault ffs3 at start file.now) }
{
    let pad = (start - align_up(8, at)) as u64;
    if is_long(ffs3, pad) {
        return Err(Refusal::Bad(fault_with_size(alloc, PAD_TOO_LONG, &file.at, pad)?));
    }
    Ok(())
}

// The same before a file, which isn't the top file.
fn check_own_pad(
    alloc: Global,
    ffs3: bool,
    at: u128,
    start: u128,
    file: &FileImage,
) -> Result<(), Refusal>
    requires start { start ≡ own_start at file.now }
    requires near { start ≤ 2 ^ 28 }
    requires aligned { IsAlignment file.now.align }
    ensures { Checks result (own_pad_fault ffs3 at file.now) }
{
    if is_top(file) {
        return Ok(());
    }
    check_pad(alloc, ffs3, at, start, file)
}

/// The first pad between files, the top file apart, that is too long.
pub(crate) fn check_pads(
    alloc: Global,
    ffs3: bool,
    first: u128,
    files: &[FileImage],
    starts: &[u128],
) -> Result<(), Refusal>
    requires aligned { AreAligned files.now }
    requires starts { starts.now ≡ own_starts first files.now }
    requires short { end_of first (plain_files files.now) ≤ 2 ^ 28 }
    ensures { Checks result (pads_fault ffs3 first (plain_files files.now)) }
{
    let mut at = first;
    for (i, file) in files.iter().enumerate() {
        let start = starts[i];
        if let Err(refusal) = check_own_pad(alloc, ffs3, at, start, file) {
            return Err(refusal);
        }
        at = next_end(start, file);
    }
    Ok(())
}

/// The pad before the top file where it is too long.
pub(crate) fn check_top_pad(
    alloc: Global,
    ffs3: bool,
    at: u128,
    top: Option<&FileImage>,
    size: u64,
) -> Result<(), Refusal>
    requires near { size ≤ 2 ^ 28 }
    requires room { holds (is_some (pointed top)) (taken_by at (pointed top)) size ≡ true }
    ensures { Checks result (top_pad_fault ffs3 at (pointed top.entry) size) }
{
    match top {
        None => Ok(()),
        Some(file) => {
            let start = size - file.bytes.bytes().len() as u64;
            check_pad(alloc, ffs3, at, start as u128, file)
        }
    }
}

/// The bytes that are taken up to the end of the files: with a top file its own from the next
/// multiple of 8 on.
pub(crate) fn taken_by(end: u128, top: Option<&FileImage>) -> u128
    requires near { end < 2 ^ 126 }
    ensures value { result ≡ taken_by end (pointed top.entry) }
    ensures near { result ≤ 2 ^ 126 + 2 ^ 64 }
    ensures after { end ≤ result }
{
    match top {
        None => end,
        Some(file) => align_up(8, end) + file.bytes.bytes().len() as u128,
    }
}

// Writes a file at its start, with a pad file before it where there is space.
#[tactic(auto, unfolding(crate::specs::Files::placed_pieces, build_base::specs::Pieces::put_pieces))]
fn put_placed(
    alloc: Global,
    out: &mut RunWriter,
    start: u64,
    bytes: &Text,
    erase: u8,
) -> Result<(), WantOfMemory>
    requires near { length out.old.bytes ≤ 2 ^ 28 }
    requires room { (start ≡ align_up 8 (length out.old.bytes))
        ⊎ (align_up 8 (length out.old.bytes) + 24 ≤ start) }
    requires free { out.old.free ≡ free_byte erase }
    ensures bytes { OnOk result
        (out.new.bytes ≡ put_pieces (free_byte erase) out.old.bytes
        (placed_pieces erase (length out.old.bytes) start bytes.now)) }
    ensures kept { OnOk result (out.new.kept ≤ out.old.kept + length bytes.now + 32) }
    ensures free { OnOk result (out.new.free ≡ out.old.free) }
{
    let first = align_up(8, out.length() as u128) as u64;
    let copy = bytes.copy(alloc)?;
    if start == first {
        out.put_at(start, copy)?;
        return Ok(());
    }
    let gap = first - out.length();
    out.fill(gap)?;
    put_pad(alloc, out, start - first, erase)?;
    out.put_at(start, copy)?;
    Ok(())
}

// Writes a file at its start, unless it is the top file.
fn put_file(
    alloc: Global,
    out: &mut RunWriter,
    file: &FileImage,
    start: u64,
    erase: u8,
) -> Result<(), WantOfMemory>
    requires start { start ≡ own_start (length out.old.bytes) file.now }
    requires near { length out.old.bytes ≤ 2 ^ 28 }
    requires aligned { IsAlignment file.now.align }
    requires free { out.old.free ≡ free_byte erase }
    ensures bytes { OnOk result
        (out.new.bytes ≡ put_pieces (free_byte erase) out.old.bytes
        (own_pieces erase (length out.old.bytes) file.now)) }
    ensures kept { OnOk result (out.new.kept ≤ out.old.kept + own_bytes file.now + 32) }
    ensures free { OnOk result (out.new.free ≡ out.old.free) }
{
    if is_top(file) {
        return Ok(());
    }
    put_placed(alloc, out, start, &file.bytes, erase)?;
    Ok(())
}

/// Writes the files, the top file apart, behind the header.
pub(crate) fn put_files(
    alloc: Global,
    out: &mut RunWriter,
    files: &[FileImage],
    starts: &[u128],
    erase: u8,
) -> Result<(), WantOfMemory>
    requires aligned { AreAligned files.now }
    requires starts { starts.now ≡ own_starts (length out.old.bytes) files.now }
    requires short { end_of (length out.old.bytes) (plain_files files.now) ≤ 2 ^ 28 }
    requires free { out.old.free ≡ free_byte erase }
    ensures bytes { OnOk result
        (out.new.bytes ≡ put_pieces (free_byte erase) out.old.bytes
        (files_pieces erase (length out.old.bytes) (plain_files files.now))) }
    ensures len { OnOk result (length out.new.bytes
        ≡ end_of (length out.old.bytes) (plain_files files.now)) }
    ensures kept { OnOk result
        (out.new.kept ≤ out.old.kept + bytes_in (plain_files files.now) + 32 * length files.now) }
    ensures free { OnOk result (out.new.free ≡ out.old.free) }
{
    for (i, image) in files.iter().enumerate() {
        let start = starts[i] as u64;
        put_file(alloc, out, image, start, erase)?;
    }
    Ok(())
}

/// Writes the top file so that it ends at the volume's last byte.
pub(crate) fn put_top(
    alloc: Global,
    out: &mut RunWriter,
    top: Option<&FileImage>,
    size: u64,
    erase: u8,
) -> Result<(), WantOfMemory>
    requires near { size ≤ 2 ^ 28 }
    requires room { holds (is_some (pointed top)) (taken_by (length out.old.bytes) (pointed top))
        size ≡ true }
    requires free { out.old.free ≡ free_byte erase }
    ensures bytes { OnOk result
        (out.new.bytes ≡ put_pieces (free_byte erase) out.old.bytes
        (top_pieces erase (length out.old.bytes) (pointed top.entry) size)) }
    ensures len { OnOk result (length out.new.bytes ≤ size) }
    ensures kept { OnOk result (out.new.kept ≤ out.old.kept + top_bytes (pointed top.entry) + 32) }
    ensures free { OnOk result (out.new.free ≡ out.old.free) }
{
    match top {
        None => Ok(()),
        Some(file) => {
            let len = file.bytes.bytes().len() as u64;
            put_placed(alloc, out, size - len, &file.bytes, erase)?;
            Ok(())
        }
    }
}
