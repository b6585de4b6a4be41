//! Numbers at places of some bytes. What lies past the end reads as 0, and nothing is written
//! there.
ghost use Rattle.std.specs.Prelude.{◌≡◌, ◌++◌, IfOk, OnOk, slice_index, slice_set, take, drop};
ghost use Rattle.byteorder.specs.Endian.{little_from};
ghost use Rattle.image_rebase.specs.Bytes.{with_bytes};

use build_base::WantOfMemory;
use std::alloc::Global;

/// The byte at a place.
pub fn byte_at(bytes: &[u8], at: u128) -> u8
    ensures { result ≡ slice_index bytes.now at }
{
    if at < bytes.len() as u128 {
        bytes[at as usize]
    } else {
        0
    }
}

/// The little-endian number of two bytes at a place.
pub fn u16_at(bytes: &[u8], at: u64) -> u16
    ensures { result ≡ little_from at 2 bytes.now }
{
    let place = at as u128;
    byte_at(bytes, place) as u16 + 256 * byte_at(bytes, place + 1) as u16
}

/// That of four bytes.
pub fn u32_at(bytes: &[u8], at: u64) -> u32
    ensures { result ≡ little_from at 4 bytes.now }
{
    let place = at as u128;
    byte_at(bytes, place) as u32
        + 256
            * (byte_at(bytes, place + 1) as u32
                + 256 * (byte_at(bytes, place + 2) as u32 + 256 * byte_at(bytes, place + 3) as u32))
}

/// That of eight bytes.
pub fn u64_at(bytes: &[u8], at: u64) -> u64
    ensures { result ≡ little_from at 8 bytes.now }
{
    let place = at as u128;
    byte_at(bytes, place) as u64
        + 256
            * (byte_at(bytes, place + 1) as u64
                + 256
                    * (byte_at(bytes, place + 2) as u64
                        + 256
                            * (byte_at(bytes, place + 3) as u64
                                + 256
                                    * (byte_at(bytes, place + 4) as u64
                                        + 256
                                            * (byte_at(bytes, place + 5) as u64
                                                + 256
                                                    * (byte_at(bytes, place + 6) as u64
                                                        + 256
                                                            * byte_at(bytes, place + 7) as u64))))))
}

/// The bytes from a place on.
pub fn rest(bytes: &[u8], at: u128) -> &[u8]
    ensures { result.now ≡ drop at bytes.now }
{
    if at < bytes.len() as u128 {
        &bytes[at as usize..]
    } else {
        &[]
    }
}

/// At most so many of the bytes.
pub fn front(bytes: &[u8], count: u128) -> &[u8]
    ensures { result.now ≡ take count bytes.now }
{
    if count < bytes.len() as u128 {
        &bytes[..count as usize]
    } else {
        bytes
    }
}

/// A copy of some bytes.
pub(crate) fn copy_bytes(alloc: Global, bytes: &[u8]) -> Result<Vec<u8>, WantOfMemory>
    ensures { IfOk result (λ out. out.items ≡ bytes.now) }
{
    Ok(Vec::from_slice(alloc, bytes)?)
}

/// Adds bytes at the end of others.
pub fn append(out: &mut Vec<u8>, bytes: &[u8]) -> Result<(), WantOfMemory>
    ensures { OnOk result (out.new.items ≡ out.old.items ++ bytes.now) }
{
    Ok(out.extend_from_slice(bytes)?)
}

// Writes a byte at a place.
fn set(bytes: &mut Vec<u8>, at: u128, byte: u8)
    ensures { bytes.new.items ≡ slice_set bytes.old.items at byte }
{
    if at < bytes.len() as u128 {
        bytes[at as usize] = byte;
    }
}

/// Writes bytes in place of those from a place on.
#[tactic(auto, unfolding(crate::specs::Bytes::with_bytes))]
pub fn put(bytes: &mut Vec<u8>, at: u64, new: &[u8])
    ensures { bytes.new.items ≡ with_bytes at new.now bytes.old.items }
{
    let mut left = new;
    let mut place = at as u128;
    while let [byte, more @ ..] = left {
        set(bytes, place, *byte);
        place += 1;
        left = more;
    }
}
