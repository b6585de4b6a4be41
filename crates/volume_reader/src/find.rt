//! Where volumes stand in an image.
ghost use Rattle.std.specs.Prelude.{◌≡◌, ◌≤◌, ◌<◌, IfSome, IsTrue, drop, length};
ghost use Rattle.volume_reader.specs.Head.{is_head, volume_from};

use crate::head::is_head;

/// The first place from `from` on, a multiple of 16, at which the header of a volume stands.
#[tactic(auto, unfolding(crate::specs::Head::volume_from))]
pub fn find_volume(bytes: &[u8], from: u64) -> Option<u64>
    ensures value { result ≡ volume_from bytes.now from }
    ensures head { IfSome result (λ at. IsTrue (is_head (drop at bytes.now))) }
    ensures after { IfSome result (λ at. from ≤ at) }
    ensures inside { IfSome result (λ at. at < length bytes.now) }
{
    let length = bytes.len() as u64;
    if length <= from {
        return None;
    }
    let mut at = (from + 15) / 16 * 16;
    while at < length {
        if is_head(&bytes[at as usize..]) {
            return Some(at);
        }
        at += 16;
    }
    None
}
