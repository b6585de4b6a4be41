//! Erased flash at a volume's end.
ghost use Rattle.std.specs.Prelude.{◌≡◌, ◌≤◌, ℕ, drop, length, nat_le};
ghost use Rattle.volume_reader.specs.Volume.{are_erased};

use build_base::blank::free_byte;

/// The least place from which all bytes are erased, under this erase polarity.
pub(crate) fn erased_from(erase: u8, bytes: &[u8]) -> u64
    ensures value { (at : ℕ) → are_erased erase (drop at bytes.now) ≡ nat_le result at }
    ensures inside { result ≤ length bytes.now }
{
    let free = free_byte(erase);
    let mut end = bytes.len();
    while end > 0 {
        if bytes[end - 1] != free {
            return end as u64;
        }
        end -= 1;
    }
    0
}
