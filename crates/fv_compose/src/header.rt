//! The header of a volume, and its extended header.
ghost use Rattle.std.specs.Prelude.{◌≡◌, ◌≤◌, ◌<◌, ◌+◌, ◌%◌, ◌^◌, ◌++◌, ◌∷◌, [], vec_len, OnOk, IfOk};
ghost use Rattle.byteorder.specs.Endian.{little_bytes};
ghost use Rattle.build_base.specs.Pieces.{put_pieces};
ghost use Rattle.build_base.specs.Runs.{free_byte};
ghost use Rattle.fv_compose.specs.Header.{words_sum, zero_word, file_system, head_start, head_front, head_back, head_list, head_of, extended_place, extended_bytes, start_pieces, header_end};

use crate::pad::pad_head;
use build_base::bytes::fill;
use build_base::{Guid, WantOfMemory};
use doc_types::standard::{EFI_FIRMWARE_FILE_SYSTEM2_GUID, EFI_FIRMWARE_FILE_SYSTEM3_GUID};
use doc_types::volume_head::VolumeHead;
use std::alloc::Global;

/// The length of a volume's header.
const LENGTH: u16 = 0x48;

/// The end of the pad file with the extended header, and its size.
const EXTENDED_END: u64 = 0x74;

const EXTENDED_SIZE: u64 = 0x2C;

/// The length of an extended header, and its place in a volume.
const EXTENDED_LENGTH: u32 = 0x14;

const EXTENDED_PLACE: u16 = 0x60;

// The name of a file system.
fn file_system(ffs3: bool) -> &'static [u8]
    ensures { result.now ≡ file_system ffs3 }
{
    if ffs3 {
        EFI_FIRMWARE_FILE_SYSTEM3_GUID.as_slice()
    } else {
        EFI_FIRMWARE_FILE_SYSTEM2_GUID.as_slice()
    }
}

// The sum of the 16-bit words of some bytes, modulo 2^16.
fn words_sum(bytes: &[u8]) -> u16
    ensures { result ≡ words_sum bytes.now % 65536 }
{
    let mut total: u16 = 0;
    let mut i = 0;
    while i + 1 < bytes.len() {
        total = total.wrapping_add(bytes[i] as u16 + 256 * bytes[i + 1] as u16);
        i += 2;
    }
    if i < bytes.len() {
        total = total.wrapping_add(bytes[i] as u16);
    }
    total
}

// The word that makes the sum zero.
#[tactic(auto, unfolding(crate::specs::Header::zero_word))]
fn zero_word(bytes: &[u8]) -> u16
    ensures value { result ≡ zero_word bytes.now }
    ensures zero { (words_sum bytes.now + result) % 65536 ≡ 0 }
{
    words_sum(bytes).wrapping_neg()
}

#[tactic(auto, unfolding(crate::specs::Header::head_start))]
fn put_head_start(out: &mut Vec<u8>, ffs3: bool, size: u64) -> Result<(), WantOfMemory>
    ensures { OnOk result (out.new.items ≡ out.old.items ++ head_start ffs3 size) }
{
    fill(out, 16, 0)?;
    out.extend_from_slice(file_system(ffs3))?;
    out.extend_from_slice(&size.to_le_bytes())?;
    Ok(())
}

#[tactic(auto, unfolding(crate::specs::Header::head_front))]
fn put_head_front(
    out: &mut Vec<u8>,
    ffs3: bool,
    size: u64,
    attributes: u32,
) -> Result<(), WantOfMemory>
    ensures { OnOk result (out.new.items ≡ out.old.items ++ head_front ffs3 size attributes) }
{
    put_head_start(out, ffs3, size)?;
    out.extend_from_slice(b"_FVH")?;
    out.extend_from_slice(&attributes.to_le_bytes())?;
    out.extend_from_slice(&LENGTH.to_le_bytes())?;
    Ok(())
}

#[tactic(auto, unfolding(crate::specs::Header::head_back))]
fn put_head_back(
    out: &mut Vec<u8>,
    sum: u16,
    extended: u16,
    blocks: u32,
    block_size: u32,
) -> Result<(), WantOfMemory>
    ensures { OnOk result (out.new.items ≡ out.old.items
        ++ head_back sum extended blocks block_size) }
{
    put_words(out, sum, extended)?;
    out.extend_from_slice(&blocks.to_le_bytes())?;
    out.extend_from_slice(&block_size.to_le_bytes())?;
    fill(out, 8, 0)
}

// The checksum, the place of the extended header, a reserved byte and the revision.
fn put_words(out: &mut Vec<u8>, sum: u16, extended: u16) -> Result<(), WantOfMemory>
    ensures { OnOk result (out.new.items ≡ out.old.items ++ little_bytes 2 sum
        ++ little_bytes 2 extended ++ 0 ∷ 2 ∷ []) }
{
    out.extend_from_slice(&sum.to_le_bytes())?;
    out.extend_from_slice(&extended.to_le_bytes())?;
    out.extend_from_slice(&[0, 2])?;
    Ok(())
}

fn extended_place(name: &Option<Guid>) -> u16
    ensures { result ≡ extended_place name.now }
{
    match name {
        Some(_) => EXTENDED_PLACE,
        None => 0,
    }
}

/// The end of the header, and of the extended header where the volume has a name.
pub(crate) fn header_end(name: &Option<Guid>) -> u64
    ensures value { result ≡ header_end name.now }
    ensures near { result ≤ 116 }
    ensures some { 0 < result }
{
    match name {
        Some(_) => EXTENDED_END,
        None => LENGTH as u64,
    }
}

// Appends a volume's header with this checksum.
#[tactic(auto, unfolding(crate::specs::Header::head_list))]
fn put_head(out: &mut Vec<u8>, plan: &VolumeHead, size: u64, sum: u16) -> Result<(), WantOfMemory>
    requires block { 0 < plan.now.block_size }
    requires small { plan.now.block_size < 2 ^ 32 }
    requires size { size < 2 ^ 32 }
    ensures { OnOk result (out.new.items ≡ out.old.items ++ head_list plan.now size sum) }
{
    put_head_front(out, plan.ffs3, size, plan.attributes)?;
    let blocks = (size / plan.block_size) as u32;
    let extended = extended_place(&plan.name_guid);
    put_head_back(out, sum, extended, blocks, plan.block_size as u32)
}

// Appends a volume's header with its own checksum.
#[tactic(auto, unfolding(crate::specs::Header::head_of))]
fn put_volume_head(
    alloc: Global,
    out: &mut Vec<u8>,
    plan: &VolumeHead,
    size: u64,
) -> Result<(), WantOfMemory>
    requires block { 0 < plan.now.block_size }
    requires small { plan.now.block_size < 2 ^ 32 }
    requires size { size < 2 ^ 32 }
    ensures { OnOk result (out.new.items ≡ out.old.items ++ head_of plan.now size) }
{
    let mut blank = Vec::new(alloc);
    put_head(&mut blank, plan, size, 0)?;
    put_head(out, plan, size, zero_word(blank.as_slice()))
}

// Appends the pad file that holds the extended header of a volume of this name (a GUID).
fn put_extended(
    alloc: Global,
    out: &mut Vec<u8>,
    name: &[u8; 16],
    erase: u8,
) -> Result<(), WantOfMemory>
    ensures value { OnOk result (out.new.items ≡ out.old.items ++ extended_bytes erase name.now) }
    ensures length { OnOk result (vec_len out.new ≡ vec_len out.old + 44) }
{
    put_extended_file(alloc, out, name, erase)?;
    Ok(())
}

#[tactic(auto, unfolding(crate::specs::Header::extended_bytes))]
fn put_extended_file(
    alloc: Global,
    out: &mut Vec<u8>,
    name: &[u8; 16],
    erase: u8,
) -> Result<(), WantOfMemory>
    ensures { OnOk result (out.new.items ≡ out.old.items ++ extended_bytes erase name.now) }
{
    let head = pad_head(alloc, EXTENDED_SIZE, erase)?;
    out.extend_from_slice(head.as_slice())?;
    out.extend_from_slice(name)?;
    out.extend_from_slice(&EXTENDED_LENGTH.to_le_bytes())?;
    Ok(())
}

/// The header of a volume of this length in bytes, and its extended header where it has a name.
pub(crate) fn start_bytes(
    alloc: Global,
    plan: &VolumeHead,
    size: u64,
) -> Result<Vec<u8>, WantOfMemory>
    requires block { 0 < plan.now.block_size }
    requires small { plan.now.block_size < 2 ^ 32 }
    requires size { size < 2 ^ 32 }
    ensures items { IfOk result (λ out. out.items
        ≡ put_pieces (free_byte plan.now.erase) [] (start_pieces plan.now size)) }
    ensures length { IfOk result (λ out. vec_len out ≡ header_end plan.now.name_guid) }
{
    let mut out = Vec::new(alloc);
    put_volume_head(alloc, &mut out, plan, size)?;
    match &plan.name_guid {
        Some(name) => {
            put_extended(alloc, &mut out, &name.0, plan.erase)?;
            Ok(out)
        }
        None => Ok(out),
    }
}
