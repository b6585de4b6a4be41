//! Texts, paths and GUIDs.
ghost use Rattle.std.specs.Prelude.{◌≡◌, ◌++◌, length, true, false, IfOk, OnOk, MatchOption};
ghost use Rattle.build_base.specs.Path.{is_path};
ghost use Rattle.packed_values.specs.Encoding.{IsAppended, IsRead, IsUnread};
ghost use Rattle.packed_values.specs.Plain.{text_encoding, path_encoding, guid_encoding};

use crate::encode::Encode;
use crate::input::Input;
use build_base::{Guid, Path, Text, WantOfMemory};
use std::alloc::Global;

/// Adds the encoding of a text of these bytes.
#[tactic(auto, unfolding(crate::specs::Plain::text_encoding, crate::specs::Plain::number_encoding))]
pub(crate) fn encode_bytes(bytes: &[u8], out: &mut Vec<u8>) -> Result<(), WantOfMemory>
    ensures { OnOk result (IsAppended text_encoding out.old.items bytes.now out.new.items) }
{
    u64::encode(&(bytes.len() as u64), out)?;
    out.extend_from_slice(bytes)?;
    Ok(())
}

/// Decodes a text, which shares the bytes that it is read from where they can be shared.
#[tactic(auto, unfolding(crate::specs::Plain::text_encoding, crate::specs::Plain::number_encoding))]
pub(crate) fn decode_text(alloc: Global, input: &mut Input) -> Result<Option<Text>, WantOfMemory>
    ensures { IfOk result
        (λ r. MatchOption r (IsUnread text_encoding input.old)
        (λ s. IsRead text_encoding input.old s input.new)) }
{
    match u64::decode(alloc, input)? {
        None => Ok(None),
        Some(count) => input.text(alloc, count),
    }
}

impl Encode for Text {
    type Value = Text;

    ghost encoding = { text_encoding };

    fn encode(value: &Text, out: &mut Vec<u8>) -> Result<(), WantOfMemory> {
        encode_bytes(value.bytes(), out)
    }

    fn decode(alloc: Global, input: &mut Input) -> Result<Option<Text>, WantOfMemory> {
        decode_text(alloc, input)
    }
}

impl Encode for Path {
    type Value = Path;

    ghost encoding = { path_encoding };

    #[tactic(auto, unfolding(crate::specs::Plain::path_encoding))]
    fn encode(value: &Path, out: &mut Vec<u8>) -> Result<(), WantOfMemory> {
        encode_bytes(value.bytes(), out)
    }

    #[tactic(auto, unfolding(crate::specs::Plain::path_encoding), using(crate::proofs::WhereLemmas::no_path))]
    fn decode(alloc: Global, input: &mut Input) -> Result<Option<Path>, WantOfMemory> {
        match decode_text(alloc, input)? {
            None => Ok(None),
            Some(text) => match Path::of_text(text) {
                None => Ok(None),
                Some(path) => Ok(Some(path)),
            },
        }
    }
}

#[tactic(auto, unfolding(crate::specs::Plain::guid_encoding))]
impl Encode for Guid {
    type Value = Guid;

    ghost encoding = { guid_encoding };

    fn encode(value: &Guid, out: &mut Vec<u8>) -> Result<(), WantOfMemory> {
        out.extend_from_slice(value.0.as_slice())?;
        Ok(())
    }

    fn decode(_alloc: Global, input: &mut Input) -> Result<Option<Guid>, WantOfMemory> {
        match input.bytes(16) {
            None => Ok(None),
            Some(bytes) => {
                let mut own = [0; 16];
                own.copy_from_slice(bytes);
                Ok(Some(Guid(own)))
            }
        }
    }
}
