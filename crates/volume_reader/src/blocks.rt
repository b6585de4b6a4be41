//! The block map of a volume's header.
ghost use Rattle.std.specs.Prelude.{◌≡◌, ◌≤◌, ◌+◌, ◌*◌, ◌==◌, ◌&&◌, not, length};
ghost use Rattle.std.specs.List.{range_with_len, list_any, sum_by};
ghost use Rattle.volume_reader.specs.Head.{header_length, num_blocks, block_length, is_map_end, block_bytes, has_blocks};

use crate::head::{fv_length, header_length};
use crate::slices::u32_at;

/// The place of the map.
const MAP: usize = 0x38;

#[tactic(auto, unfolding(crate::specs::Head::num_blocks))]
fn num_blocks(bytes: &[u8], k: usize) -> u32
    requires { 0x40 + 8 * k ≤ length bytes.now }
    ensures { result ≡ num_blocks bytes.now k }
{
    u32_at(bytes, MAP + 8 * k)
}

#[tactic(auto, unfolding(crate::specs::Head::block_length))]
fn block_length(bytes: &[u8], k: usize) -> u32
    requires { 0x40 + 8 * k ≤ length bytes.now }
    ensures { result ≡ block_length bytes.now k }
{
    u32_at(bytes, MAP + 4 + 8 * k)
}

#[tactic(auto, unfolding(crate::specs::Head::is_map_end))]
fn is_map_end(bytes: &[u8], k: usize) -> bool
    requires { 0x40 + 8 * k ≤ length bytes.now }
    ensures { result ≡ is_map_end bytes.now k }
{
    num_blocks(bytes, k) == 0 && block_length(bytes, k) == 0
}

#[tactic(auto, unfolding(crate::specs::Head::block_bytes))]
fn block_bytes(bytes: &[u8], k: usize) -> u64
    requires { 0x40 + 8 * k ≤ length bytes.now }
    ensures { result ≡ block_bytes bytes.now k }
{
    num_blocks(bytes, k) as u64 * block_length(bytes, k) as u64
}

// Whether none of the first so many entries is the end, and their blocks have so many bytes. It
// reads no further than those bytes.
fn fill(bytes: &[u8], last: usize, size: u64) -> bool
    requires { 0x40 + 8 * last ≤ length bytes.now }
    ensures { result
        ≡ (not (list_any (is_map_end bytes.now) (range_with_len 0 last))
        && sum_by (block_bytes bytes.now) (range_with_len 0 last) == size) }
{
    let mut total: u128 = 0;
    for k in 0..last {
        if is_map_end(bytes, k) {
            return false;
        }
        total += block_bytes(bytes, k) as u128;
        if total > size as u128 {
            return false;
        }
    }
    total == size as u128
}

/// Whether the block map ends where the header does, and has as many bytes as the volume.
#[tactic(auto, unfolding(crate::specs::Head::has_blocks))]
pub(crate) fn has_blocks(bytes: &[u8]) -> bool
    requires least { 0x48 ≤ header_length bytes.now }
    requires inside { header_length bytes.now ≤ length bytes.now }
    ensures { result ≡ has_blocks bytes.now }
{
    let map = header_length(bytes) as usize - MAP;
    if map % 8 != 0 {
        return false;
    }
    let last = map / 8 - 1;
    if !is_map_end(bytes, last) {
        return false;
    }
    fill(bytes, last, fv_length(bytes))
}
