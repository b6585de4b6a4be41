//! What a volume holds (UEFI PI specification, volume 3, sections 3.2.1 to 3.2.3).
ghost use Rattle.std.specs.Prelude.{◌≤◌, IfOk, ◌≡◌, ◌-◌, IfErr, ◌<◌, ◌+◌, ◌^◌, IsTrue, List, length};
ghost use Rattle.doc_types.specs.declared.volume_head.VolumeHead.{VolumeHead};
ghost use Rattle.volume_reader.specs.Head.{is_head};
ghost use Rattle.volume_reader.specs.Volume.{held_from, volume_list, Reads, IsNear};
ghost use Rattle.volume_reader.specs.Written.{Made, IsWritten, written_list};

use crate::erased::erased_from;
use crate::file::{is_file, listed_file, stated_size};
use crate::head::{erase_polarity, fv_length, header_length, is_ffs3};
use crate::listed::{Listed, ReadRefusal, VolumeList};
use crate::slices::{front, rest, up8};
use build_base::{Rows, WantOfMemory};
use std::alloc::Global;

/// Files in order, and how many bytes are free behind them.
#[derive(Drop)]
pub(crate) struct Held {
    pub files: Rows<Listed>,
    pub free: u64,
}

// How many bytes stand from a place on.
fn bytes_behind(volume: &[u8], at: u64) -> u64
    ensures { result ≡ length volume.now - at }
{
    (volume.len() as u64).saturating_sub(at)
}

// What a volume holds from a place on.
fn held_from(
    alloc: Global,
    ffs3: bool,
    erase: u8,
    volume: &[u8],
    first: u64,
) -> Result<Held, ReadRefusal>
    requires { first < 2 ^ 17 }
    ensures value { Reads result (held_from (length volume.now + 1) ffs3 erase volume.now first) }
    ensures near { IfErr result IsNear }
{
    let end = erased_from(erase, volume);
    let mut files = Rows::new(alloc);
    let mut at = first;
    while at < end {
        let bytes = rest(volume, at);
        if !is_file(ffs3, erase, bytes) {
            return Err(ReadRefusal::BadFile(at));
        }
        let file = listed_file(alloc, ffs3, at, bytes)?;
        files.push(file)?;
        let size = stated_size(bytes);
        at = up8(at + size);
    }
    let free = bytes_behind(volume, at);
    Ok(Held { files, free })
}

// What the volume holds that some bytes begin with.
#[tactic(auto, unfolding(crate::specs::Volume::volume_list))]
fn read_list(alloc: Global, bytes: &[u8]) -> Result<VolumeList, ReadRefusal>
    requires { IsTrue (is_head bytes.now) }
    ensures value { Reads result (volume_list bytes.now) }
    ensures near { IfErr result IsNear }
    ensures some { IfOk result (λ list. 0 < list.length) }
    ensures inside { IfOk result (λ list. list.length ≤ length bytes.now) }
{
    let length = fv_length(bytes);
    let ffs3 = is_ffs3(bytes);
    let first = up8(header_length(bytes) as u64);
    let held = held_from(
        alloc,
        ffs3,
        erase_polarity(bytes),
        front(bytes, length),
        first,
    )?;
    Ok(VolumeList {
        length,
        ffs3,
        files: held.files,
        free: held.free,
    })
}

/// What the volume holds that some bytes begin with. A wrong file is named by its place in the
/// volume. A volume that is written reads back as its files and the pad files between them.
pub fn read_volume(alloc: Global, bytes: &[u8]) -> Result<VolumeList, ReadRefusal>
    requires { IsTrue (is_head bytes.now) }
    ensures value { Reads result (volume_list bytes.now) }
    ensures near { IfErr result IsNear }
    ensures some { IfOk result (λ list. 0 < list.length) }
    ensures inside { IfOk result (λ list. list.length ≤ length bytes.now) }
    ensures written { (head : VolumeHead) (made : List Made) → IsWritten head made bytes.now
        → IfOk result (λ list. list ≡ written_list head made (length bytes.now)) }
{
    read_list(alloc, bytes)
}
