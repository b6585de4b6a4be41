//! Heads of texts, as they are written and as they are told from others.
ghost use Rattle.std.specs.Prelude.{◌≡◌, ◌++◌, ◌≤◌, ◌↔◌, IsTrue, IfOk, OnOk, length, drop, take};
ghost use Rattle.cache_heads.specs.Heads.{edition_in, head_of, is_edition, newest};

use build_base::{Text, WantOfMemory};
use packed_values::Encode;
use std::alloc::Global;

/// How many bytes stand before the body.
pub const HEAD: usize = 20;

/// The edition of the texts that are written.
pub const NEWEST: u32 = 5;

/// The oldest edition of the texts that are read.
const OLDEST: u32 = 2;

/// Whether texts of an edition are read.
pub fn is_edition(edition: u32) -> bool
    ensures { result ≡ is_edition edition }
{
    OLDEST <= edition && edition <= NEWEST
}

// Adds what stands before a body of so many bytes.
fn put_head(edition: u32, count: u64, out: &mut Vec<u8>) -> Result<(), WantOfMemory>
    requires { count ≤ 9223372036854775807 }
    ensures { OnOk result (out.new.items ≡ out.old.items ++ head_of edition count) }
{
    out.extend_from_slice(b"EDKSTEPS")?;
    u32::encode(&edition, out)?;
    u64::encode(&(HEAD as u64 + count), out)
}

// Writes a head over what stands at the front.
fn set_front(text: &mut [u8], head: &[u8])
    requires room { 20 ≤ length text.old }
    requires head { length head.now ≡ 20 }
    ensures { text.new ≡ head.now ++ drop 20 text.old }
{
    text[..HEAD].copy_from_slice(head);
}

/// The text of the newest edition with what stands behind room for a head as its body.
#[tactic(auto, using(crate::proofs::HeadLemmas::length_head))]
pub fn with_head(alloc: Global, mut text: Vec<u8>) -> Result<Text, WantOfMemory>
    requires { 20 ≤ length text.items }
    ensures { IfOk result (λ t. t ≡ head_of newest (length (drop 20 text.items))
        ++ drop 20 text.items) }
{
    let mut head = Vec::new(alloc);
    put_head(NEWEST, (text.len() - HEAD) as u64, &mut head)?;
    set_front(text.as_mut_slice(), head.as_slice());
    Ok(Text::from_vec(text))
}

/// What stands behind a start.
pub fn behind(bytes: &[u8], start: usize) -> &[u8]
    requires { start ≤ length bytes.now }
    ensures { result.now ≡ drop start bytes.now }
{
    &bytes[start..]
}

/// What stands before it.
pub fn before(bytes: &[u8], start: usize) -> &[u8]
    requires { start ≤ length bytes.now }
    ensures { result.now ≡ take start bytes.now }
{
    &bytes[..start]
}

/// The edition that a head states, if one that is read.
pub fn edition_in(bytes: &[u8]) -> u32
    requires { 20 ≤ length bytes.now }
    ensures { result ≡ edition_in bytes.now }
{
    bytes[8] as u32
}

/// Whether the bytes begin with the head of what stands behind it, in an edition.
pub fn is_head(alloc: Global, edition: u32, bytes: &[u8]) -> Result<bool, WantOfMemory>
    requires { 20 ≤ length bytes.now }
    ensures { IfOk result (λ yes. IsTrue yes ↔
        (take 20 bytes.now ≡ head_of edition (length (drop 20 bytes.now)))) }
{
    let mut head = Vec::new(alloc);
    put_head(edition, behind(bytes, HEAD).len() as u64, &mut head)?;
    Ok(before(bytes, HEAD) == head.as_slice())
}
