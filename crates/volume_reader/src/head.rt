//! The header of a volume (UEFI PI specification, volume 3, section 3.2.1).
ghost use Rattle.std.specs.Prelude.{◌≡◌, ◌≤◌, ◌%◌, IsTrue, length, codes, false, ◌==◌};
ghost use Rattle.std.specs.Str.{bytes_eq};
ghost use Rattle.fv_compose.specs.Header.{words_sum, file_system};
ghost use Rattle.volume_reader.specs.Head.{file_system_guid, fv_length, signature, attributes, header_length, revision, is_ffs3, erase_polarity, has_names, has_lengths, has_sum, is_head};

use crate::blocks::has_blocks;
use crate::slices::{u16_at, u32_at, u64_at};
use doc_types::standard::{EFI_FIRMWARE_FILE_SYSTEM2_GUID, EFI_FIRMWARE_FILE_SYSTEM3_GUID};

/// The least length of a header, with a block map of one entry and its end.
const LEAST: usize = 0x48;

/// The length of the volume that some bytes begin with.
#[tactic(auto, unfolding(crate::specs::Head::fv_length))]
pub(crate) fn fv_length(bytes: &[u8]) -> u64
    requires { 0x48 ≤ length bytes.now }
    ensures { result ≡ fv_length bytes.now }
{
    u64_at(bytes, 0x20)
}

/// The length of its header.
#[tactic(auto, unfolding(crate::specs::Head::header_length))]
pub(crate) fn header_length(bytes: &[u8]) -> u16
    requires { 0x48 ≤ length bytes.now }
    ensures { result ≡ header_length bytes.now }
{
    u16_at(bytes, 0x30)
}

#[tactic(auto, unfolding(crate::specs::Head::attributes))]
fn attributes(bytes: &[u8]) -> u32
    requires { 0x48 ≤ length bytes.now }
    ensures { result ≡ attributes bytes.now }
{
    u32_at(bytes, 0x2C)
}

/// The erase polarity, 1 or 0.
#[tactic(auto, unfolding(crate::specs::Head::erase_polarity))]
pub(crate) fn erase_polarity(bytes: &[u8]) -> u8
    requires { 0x48 ≤ length bytes.now }
    ensures { result ≡ erase_polarity bytes.now }
{
    (attributes(bytes) / 0x800 % 2) as u8
}

#[tactic(auto, unfolding(crate::specs::Head::signature))]
fn is_signed(bytes: &[u8]) -> bool
    requires { 0x48 ≤ length bytes.now }
    ensures { result ≡ bytes_eq (signature bytes.now) (codes "_FVH") }
{
    &bytes[0x28..0x2C] == b"_FVH".as_slice()
}

#[tactic(auto, unfolding(crate::specs::Head::file_system_guid))]
fn is_named(bytes: &[u8], guid: &[u8; 16]) -> bool
    requires { 0x48 ≤ length bytes.now }
    ensures { result ≡ bytes_eq (file_system_guid bytes.now) guid.now }
{
    &bytes[0x10..0x20] == guid.as_slice()
}

/// Whether the file system is FFS3.
#[tactic(auto, unfolding(crate::specs::Head::is_ffs3))]
pub(crate) fn is_ffs3(bytes: &[u8]) -> bool
    requires { 0x48 ≤ length bytes.now }
    ensures { result ≡ is_ffs3 bytes.now }
{
    is_named(bytes, &EFI_FIRMWARE_FILE_SYSTEM3_GUID)
}

fn is_ffs2(bytes: &[u8]) -> bool
    requires { 0x48 ≤ length bytes.now }
    ensures { result ≡ bytes_eq (file_system_guid bytes.now) (file_system false) }
{
    is_named(bytes, &EFI_FIRMWARE_FILE_SYSTEM2_GUID)
}

#[tactic(auto, unfolding(crate::specs::Head::revision))]
fn is_revised(bytes: &[u8]) -> bool
    requires { 0x48 ≤ length bytes.now }
    ensures { result ≡ (revision bytes.now == 2) }
{
    bytes[0x37] == 2
}

#[tactic(auto, unfolding(crate::specs::Head::has_names))]
fn has_names(bytes: &[u8]) -> bool
    ensures value { result ≡ has_names bytes.now }
    ensures long { IsTrue result → 0x48 ≤ length bytes.now }
{
    if bytes.len() < LEAST {
        return false;
    }
    if !is_signed(bytes) {
        return false;
    }
    if !is_revised(bytes) {
        return false;
    }
    if is_ffs2(bytes) {
        return true;
    }
    is_ffs3(bytes)
}

#[tactic(auto, unfolding(crate::specs::Head::has_lengths))]
fn has_lengths(bytes: &[u8]) -> bool
    requires { 0x48 ≤ length bytes.now }
    ensures value { result ≡ has_lengths bytes.now }
    ensures least { IsTrue result → 0x48 ≤ header_length bytes.now }
    ensures inside { IsTrue result → header_length bytes.now ≤ length bytes.now }
{
    let header = header_length(bytes);
    if header % 2 != 0 {
        return false;
    }
    if (header as usize) < LEAST {
        return false;
    }
    let length = fv_length(bytes);
    if length < header as u64 {
        return false;
    }
    length <= bytes.len() as u64
}

// The sum of the 16-bit words of some bytes, modulo 2^16.
#[tactic(auto, unfolding(fv_compose::specs::Header::words_sum))]
fn words_sum(bytes: &[u8]) -> u16
    ensures { result ≡ words_sum bytes.now % 65536 }
{
    let mut left = bytes;
    let mut total: u16 = 0;
    while let [low, high, rest @ ..] = left {
        total = total.wrapping_add(*low as u16 + 256 * *high as u16);
        left = rest;
    }
    match left {
        [low, ..] => total.wrapping_add(*low as u16),
        [] => total,
    }
}

#[tactic(auto, unfolding(crate::specs::Head::has_sum))]
fn has_sum(bytes: &[u8]) -> bool
    requires long { 0x48 ≤ length bytes.now }
    requires inside { header_length bytes.now ≤ length bytes.now }
    ensures { result ≡ has_sum bytes.now }
{
    let header = &bytes[..header_length(bytes) as usize];
    words_sum(header) == 0
}

/// Whether some bytes begin with the header of a volume that lies within them.
#[tactic(auto, unfolding(crate::specs::Head::is_head))]
pub fn is_head(bytes: &[u8]) -> bool
    ensures { result ≡ is_head bytes.now }
{
    if !has_names(bytes) {
        return false;
    }
    if !has_lengths(bytes) {
        return false;
    }
    if !has_blocks(bytes) {
        return false;
    }
    has_sum(bytes)
}
