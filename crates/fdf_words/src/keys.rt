//! Keys of a line `KEY = VALUE`.
ghost use Rattle.std.specs.Prelude.{◌≡◌};
ghost use Rattle.std.specs.Option.{option_map};
ghost use Rattle.std.specs.List.{list_all};
ghost use Rattle.meta_lexer.specs.Tokens.{is_word_byte};
ghost use Rattle.fdf_words.specs.Keys.{is_key, key_and_value, key_pair, device_word, volume_word, is_set};

use crate::rows::{DeviceKey, VolumeKey};
use crate::words::{begins_with, first_word};
use meta_lexer::line::trim;
use meta_lexer::lookup;
use meta_lexer::token::is_word_byte;
use meta_lexer::words::{place_of, same_word};

/// What a key of a device states: a number, or what fills a region.
#[derive(Clone, Copy, PartialEq, Eq)]
pub enum DeviceWord {
    Number(DeviceKey),
    Volume,
    Tree,
    Bytes,
}

/// What a key of a volume states. `Attribute` has the attribute's bits in the volume's header.
#[derive(Clone, Copy, PartialEq, Eq)]
pub enum VolumeWord {
    Number(VolumeKey),
    NameGuid,
    FileSystem,
    ForceRebase,
    Attribute(u32),
}

const DEVICE_WORDS: [(&[u8], DeviceWord); 8] = [
    (b"BaseAddress", DeviceWord::Number(DeviceKey::BaseAddress)),
    (b"Size", DeviceWord::Number(DeviceKey::Size)),
    (
        b"ErasePolarity",
        DeviceWord::Number(DeviceKey::ErasePolarity),
    ),
    (b"BlockSize", DeviceWord::Number(DeviceKey::BlockSize)),
    (b"NumBlocks", DeviceWord::Number(DeviceKey::NumBlocks)),
    (b"FV", DeviceWord::Volume),
    (b"FILE", DeviceWord::Tree),
    (b"DATA", DeviceWord::Bytes),
];

const VOLUME_WORDS: [(&[u8], VolumeWord); 23] = [
    (b"BlockSize", VolumeWord::Number(VolumeKey::BlockSize)),
    (b"NumBlocks", VolumeWord::Number(VolumeKey::NumBlocks)),
    (
        b"FvBaseAddress",
        VolumeWord::Number(VolumeKey::FvBaseAddress),
    ),
    (b"FvAlignment", VolumeWord::Number(VolumeKey::FvAlignment)),
    (
        b"ERASE_POLARITY",
        VolumeWord::Number(VolumeKey::ErasePolarity),
    ),
    (b"FvNameGuid", VolumeWord::NameGuid),
    (b"FileSystemGuid", VolumeWord::FileSystem),
    (b"FvForceRebase", VolumeWord::ForceRebase),
    (b"READ_DISABLED_CAP", VolumeWord::Attribute(0x1)),
    (b"READ_ENABLED_CAP", VolumeWord::Attribute(0x2)),
    (b"READ_STATUS", VolumeWord::Attribute(0x4)),
    (b"WRITE_DISABLED_CAP", VolumeWord::Attribute(0x8)),
    (b"WRITE_ENABLED_CAP", VolumeWord::Attribute(0x10)),
    (b"WRITE_STATUS", VolumeWord::Attribute(0x20)),
    (b"LOCK_CAP", VolumeWord::Attribute(0x40)),
    (b"LOCK_STATUS", VolumeWord::Attribute(0x80)),
    (b"STICKY_WRITE", VolumeWord::Attribute(0x200)),
    (b"MEMORY_MAPPED", VolumeWord::Attribute(0x400)),
    (b"READ_LOCK_CAP", VolumeWord::Attribute(0x1000)),
    (b"READ_LOCK_STATUS", VolumeWord::Attribute(0x2000)),
    (b"WRITE_LOCK_CAP", VolumeWord::Attribute(0x4000)),
    (b"WRITE_LOCK_STATUS", VolumeWord::Attribute(0x8000)),
    (b"WEAK_ALIGNMENT", VolumeWord::Attribute(0x8000_0000)),
];

fn has_word_bytes(text: &[u8]) -> bool
    ensures { result ≡ list_all is_word_byte text.now }
{
    text.iter().all(|byte| is_word_byte(*byte))
}

#[tactic(auto, unfolding(crate::specs::Keys::is_key))]
fn is_key(text: &[u8]) -> bool
    ensures { result ≡ is_key text.now }
{
    !text.is_empty() && has_word_bytes(text)
}

fn key_and_value<'a>(key: &'a [u8], value: &'a [u8]) -> Option<(&'a [u8], &'a [u8])>
    ensures { option_map (λ p. (p.0.now, p.1.now)) result ≡ key_and_value key.now value.now }
{
    if is_key(key) && !begins_with(b'=', value) {
        Some((key, trim(value)))
    } else {
        None
    }
}

/// The key and the value of a line `KEY = VALUE`.
#[tactic(auto, unfolding(crate::specs::Keys::key_pair))]
pub fn key_pair(text: &[u8]) -> Option<(&[u8], &[u8])>
    ensures { option_map (λ p. (p.0.now, p.1.now)) result ≡ key_pair text.now }
{
    let i = place_of(b'=', text);
    if i < text.len() {
        key_and_value(trim(&text[..i]), &text[i + 1..])
    } else {
        None
    }
}

/// What a key of a device states.
#[tactic(auto, unfolding(crate::specs::Keys::device_word))]
pub fn device_word(word: &[u8]) -> Option<DeviceWord>
    ensures { result ≡ device_word word.now }
{
    lookup(&DEVICE_WORDS, word)
}

/// What a key of a volume states.
#[tactic(auto, unfolding(crate::specs::Keys::volume_word))]
pub fn volume_word(word: &[u8]) -> Option<VolumeWord>
    ensures { result ≡ volume_word word.now }
{
    lookup(&VOLUME_WORDS, word)
}

/// Whether a line begins with the word SET, and no `=` behind it.
#[tactic(auto, unfolding(crate::specs::Keys::is_set))]
pub fn is_set(text: &[u8]) -> bool
    ensures { result ≡ is_set text.now }
{
    let (word, rest) = first_word(text);
    same_word(word, b"SET".as_slice()) && !begins_with(b'=', rest)
}
