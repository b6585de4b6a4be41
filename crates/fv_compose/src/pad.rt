//! Pad files.
ghost use Rattle.std.specs.Prelude.{◌≡◌, ◌≤◌, ◌+◌, ◌++◌, length, OnOk, IfOk};
ghost use Rattle.build_base.specs.Runs.{free_byte};
ghost use Rattle.ffs_sections.specs.File.{head_len};
ghost use Rattle.fv_compose.specs.Pads.{is_large_pad, pad_header, pad_bytes};

use build_base::{RunWriter, Text, WantOfMemory};
use doc_types::standard::EFI_FV_FILETYPE_FFS_PAD;
use ffs_sections::header::{Head, append_head, state_of};
use ffs_sections::standard::{FFS_FIXED_CHECKSUM, FILE_LIMIT};
use std::alloc::Global;

/// The name of a pad file.
static PAD_NAME: [u8; 16] = [0xFF; 16];

/// The header of a pad file of this size in bytes, header and all.
pub(crate) fn pad_head(alloc: Global, size: u64, erase: u8) -> Result<Vec<u8>, WantOfMemory>
    ensures bytes { IfOk result (λ head. head.items ≡ pad_header erase size) }
    ensures length { IfOk result (λ head. length head.items ≡ head_len (is_large_pad size)) }
{
    let head = Head {
        check: FFS_FIXED_CHECKSUM,
        kind: EFI_FV_FILETYPE_FFS_PAD,
        attributes: 0,
        size,
        state: state_of(erase),
    };
    let mut bytes = Vec::new(alloc);
    append_head(alloc, &mut bytes, size > FILE_LIMIT, &PAD_NAME, &head)?;
    Ok(bytes)
}

// Writes a pad file with this header.
#[tactic(auto, unfolding(crate::specs::Pads::pad_bytes))]
fn put_headed(out: &mut RunWriter, head: Text, size: u64, erase: u8) -> Result<(), WantOfMemory>
    requires head { head ≡ pad_header erase size }
    requires long { length head ≡ head_len (is_large_pad size) }
    requires least { head_len (is_large_pad size) ≤ size }
    requires free { out.old.free ≡ free_byte erase }
    ensures bytes { OnOk result (out.new.bytes ≡ out.old.bytes ++ pad_bytes erase size) }
    ensures kept { OnOk result (out.new.kept ≡ out.old.kept + head_len (is_large_pad size)) }
    ensures free { OnOk result (out.new.free ≡ out.old.free) }
{
    let len = head.bytes().len() as u64;
    out.put(head)?;
    out.fill(size - len)?;
    Ok(())
}

/// Writes a pad file of this size in bytes, header and all.
pub(crate) fn put_pad(
    alloc: Global,
    out: &mut RunWriter,
    size: u64,
    erase: u8,
) -> Result<(), WantOfMemory>
    requires least { 24 ≤ size }
    requires free { out.old.free ≡ free_byte erase }
    ensures bytes { OnOk result (out.new.bytes ≡ out.old.bytes ++ pad_bytes erase size) }
    ensures len { OnOk result (length out.new.bytes ≡ length out.old.bytes + size) }
    ensures kept { OnOk result (out.new.kept ≤ out.old.kept + 32) }
    ensures free { OnOk result (out.new.free ≡ out.old.free) }
{
    let head = pad_head(alloc, size, erase)?;
    put_headed(out, Text::from_vec(head), size, erase)?;
    Ok(())
}
