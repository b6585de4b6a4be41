//! Parts of bytes, a number of them, and writing at the end of a vector of them.
ghost use Rattle.std.specs.Prelude.{◌≡◌, ◌++◌, take, drop, replicate, OnOk};
ghost use Rattle.build_base.specs.Digest.{digest};

use crate::WantOfMemory;
use std::hash::{FoldHasher, Hasher};

/// Appends a byte so many times.
pub fn fill(out: &mut Vec<u8>, count: u64, byte: u8) -> Result<(), WantOfMemory>
    ensures { OnOk result (out.new.items ≡ out.old.items ++ replicate count byte) }
{
    match out.len().checked_add(count as usize) {
        Some(len) => {
            out.resize(len, byte)?;
            Ok(())
        }
        None => Err(WantOfMemory),
    }
}

/// So many bytes behind a start, or as many as there are.
#[tactic(auto, using(crate::proofs::PartLemmas::part_within))]
pub fn part_of(bytes: &[u8], start: usize, count: usize) -> &[u8]
    ensures { result.now ≡ take count (drop start bytes.now) }
{
    let rest = &bytes[start.min(bytes.len())..];
    &rest[..count.min(rest.len())]
}

/// A number of a text, by which it is looked up and told apart; others may have it too.
#[tactic(auto, unfolding(crate::specs::Digest::digest))]
pub fn digest(text: &[u8]) -> u64
    ensures { result ≡ digest text.now }
{
    let mut state = FoldHasher::default();
    state.write(text);
    state.finish()
}
