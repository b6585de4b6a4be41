//! Parts of bytes, and numbers in them.
ghost use Rattle.std.specs.Prelude.{◌≡◌, ◌≤◌, ◌+◌, ◌<◌, ◌^◌, take, drop, length};
ghost use Rattle.byteorder.specs.Endian.{little_from};
ghost use Rattle.fv_compose.specs.Place.{align_up as spec_up};

use byteorder::{ByteOrder, LittleEndian};

/// The bytes from a place on.
pub fn rest(bytes: &[u8], at: u64) -> &[u8]
    ensures { result.now ≡ drop at bytes.now }
{
    if at < bytes.len() as u64 {
        &bytes[at as usize..]
    } else {
        &[]
    }
}

/// At most so many of the bytes.
pub fn front(bytes: &[u8], count: u64) -> &[u8]
    ensures { result.now ≡ take count bytes.now }
{
    if count < bytes.len() as u64 {
        &bytes[..count as usize]
    } else {
        bytes
    }
}

/// The least multiple of 8 from a place on.
#[tactic(auto, unfolding(fv_compose::specs::Place::align_up))]
pub(crate) fn up8(at: u64) -> u64
    requires { at < 2 ^ 63 + 2 ^ 16 }
    ensures value { result ≡ spec_up 8 at }
    ensures after { at ≤ result }
    ensures near { result ≤ at + 7 }
{
    (at + 7) / 8 * 8
}

/// The little-endian number of two bytes at a place.
pub fn u16_at(bytes: &[u8], at: usize) -> u16
    requires { at + 2 ≤ length bytes.now }
    ensures { result ≡ little_from at 2 bytes.now }
{
    LittleEndian::read_u16(&bytes[at..])
}

/// That of three bytes.
pub(crate) fn u24_at(bytes: &[u8], at: usize) -> u32
    requires { at + 3 ≤ length bytes.now }
    ensures { result ≡ little_from at 3 bytes.now }
{
    LittleEndian::read_u24(&bytes[at..])
}

/// That of four bytes.
pub fn u32_at(bytes: &[u8], at: usize) -> u32
    requires { at + 4 ≤ length bytes.now }
    ensures { result ≡ little_from at 4 bytes.now }
{
    LittleEndian::read_u32(&bytes[at..])
}

/// That of eight bytes.
pub fn u64_at(bytes: &[u8], at: usize) -> u64
    requires { at + 8 ≤ length bytes.now }
    ensures { result ≡ little_from at 8 bytes.now }
{
    LittleEndian::read_u64(&bytes[at..])
}
