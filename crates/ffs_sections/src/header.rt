//! A file's header.
ghost use Rattle.std.specs.Prelude.{◌≡◌, ◌+◌, ◌<◌, ◌++◌, ◌⊎◌, ◌%◌, ◌==◌, slice_index, OnOk, IfOk, length, vec_len};
ghost use Rattle.ffs_sections.specs.File.{short_fields, long_fields, file_head, head_len, header_len, state_of};
ghost use Rattle.ffs_sections.specs.Sums.{summed};

use crate::standard::{FFS_ATTRIB_LARGE_FILE, FILE_STATE};
use crate::sums::{header_sum, header_sum_long};
use build_base::WantOfMemory;
use std::alloc::Global;

/// The fields of a header, but for its name and its own checksum. `check` is the file checksum,
/// `attributes` are those of a file that isn't large, `size` counts the header and the body.
#[derive(Drop)]
pub struct Head {
    pub check: u8,
    pub kind: u8,
    pub attributes: u8,
    pub size: u64,
    pub state: u8,
}

/// The state byte of a whole and valid file under this erase polarity.
pub fn state_of(erase: u8) -> u8
    ensures { result ≡ state_of erase }
{
    if erase == 0 {
        FILE_STATE
    } else {
        0xFF - FILE_STATE
    }
}

// Whether the header that a file begins with has the attribute of large files.
fn says_large(bytes: &[u8]) -> bool
    ensures { result ≡ (slice_index bytes.now 19 % 2 == 1) }
{
    bytes.len() > 19 && bytes[19] % 2 == 1
}

/// The length of the header that a file begins with.
#[tactic(auto, unfolding(crate::specs::File::header_len))]
pub fn header_len(bytes: &[u8]) -> u32
    ensures value { result ≡ header_len bytes.now }
    ensures either { (result ≡ 24) ⊎ (result ≡ 32) }
{
    if says_large(bytes) { 32 } else { 24 }
}

#[tactic(auto, unfolding(crate::specs::File::short_fields))]
fn short_fields(alloc: Global, name: &[u8; 16], head: &Head) -> Result<Vec<u8>, WantOfMemory>
    ensures value { IfOk result (λ out. out.items ≡ short_fields name.now head.now) }
    ensures length { IfOk result (λ out. length out.items ≡ 24) }
{
    let size = head.size.to_le_bytes();
    let mut out = Vec::from_slice(alloc, name)?;
    out.extend_from_slice(&[0, head.check, head.kind, head.attributes])?;
    out.extend_from_slice(&[size[0], size[1], size[2], head.state])?;
    Ok(out)
}

#[tactic(auto, unfolding(crate::specs::File::long_fields))]
fn long_fields(alloc: Global, name: &[u8; 16], head: &Head) -> Result<Vec<u8>, WantOfMemory>
    requires { head.now.attributes < 255 }
    ensures value { IfOk result (λ out. out.items ≡ long_fields name.now head.now) }
    ensures length { IfOk result (λ out. length out.items ≡ 32) }
{
    let attributes = head.attributes + FFS_ATTRIB_LARGE_FILE;
    let mut out = Vec::from_slice(alloc, name)?;
    out.extend_from_slice(&[0, head.check, head.kind, attributes])?;
    out.extend_from_slice(&[0, 0, 0, head.state])?;
    out.extend_from_slice(&head.size.to_le_bytes())?;
    Ok(out)
}

// The header of a file that isn't large.
fn short_head(alloc: Global, name: &[u8; 16], head: &Head) -> Result<[u8; 24], WantOfMemory>
    ensures { IfOk result (λ bytes. bytes ≡ summed (short_fields name.now head.now)) }
{
    let fields = short_fields(alloc, name, head)?;
    let mut bytes = [0; 24];
    bytes.copy_from_slice(fields.as_slice());
    bytes[16] = header_sum(&bytes);
    Ok(bytes)
}

// The header of a large file.
fn long_head(alloc: Global, name: &[u8; 16], head: &Head) -> Result<[u8; 32], WantOfMemory>
    requires { head.now.attributes < 255 }
    ensures { IfOk result (λ bytes. bytes ≡ summed (long_fields name.now head.now)) }
{
    let fields = long_fields(alloc, name, head)?;
    let mut bytes = [0; 32];
    bytes.copy_from_slice(fields.as_slice());
    bytes[16] = header_sum_long(&bytes);
    Ok(bytes)
}

/// Appends the header of a file of this name (a GUID), with its own checksum.
#[tactic(auto, unfolding(crate::specs::File::file_head))]
pub fn append_head(
    alloc: Global,
    out: &mut Vec<u8>,
    large: bool,
    name: &[u8; 16],
    head: &Head,
) -> Result<(), WantOfMemory>
    requires { head.now.attributes < 255 }
    ensures value { OnOk result
        (out.new.items ≡ out.old.items ++ file_head large name.now head.now) }
    ensures length { OnOk result (vec_len out.new ≡ vec_len out.old + head_len large) }
{
    if large {
        let bytes = long_head(alloc, name, head)?;
        out.extend_from_slice(&bytes)?;
        return Ok(());
    }
    let bytes = short_head(alloc, name, head)?;
    out.extend_from_slice(&bytes)?;
    Ok(())
}
