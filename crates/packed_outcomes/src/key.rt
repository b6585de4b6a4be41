//! Keys of steps.
ghost use Rattle.std.specs.Prelude.{◌≡◌, ◌++◌};
ghost use Rattle.packed_values.specs.Encoding.{IsAppended, IsRead, IsUnread};
ghost use Rattle.packed_outcomes.specs.Key.{key_encoding};

use build_base::{Path, WantOfMemory};
use packed_documents::made::ModuleEncoding;
use packed_values::plain::encode_byte;
use packed_values::{Encode, Input};
use std::alloc::Global;
use step_pack::Key;

/// How a value of `Key` is encoded.
pub struct KeyEncoding;

impl Encode for KeyEncoding {
    type Value = Key;

    ghost encoding = { key_encoding };

    #[tactic(auto, unfolding(crate::specs::Key::key_encoding, packed_values::specs::Arms::tagged_encoding, packed_values::specs::Arms::arm, packed_values::specs::Arms::last_arm, packed_values::specs::Arms::unit_encoding, packed_values::specs::Plain::byte_encoding, packed_values::specs::Parts::pair_encoding))]
    fn encode(value: &Key, out: &mut Vec<u8>) -> Result<(), WantOfMemory> {
        match value {
            Key::Dec(path) => {
                encode_byte(0, out)?;
                Path::encode(path, out)
            }
            Key::Inf(path) => {
                encode_byte(1, out)?;
                Path::encode(path, out)
            }
            Key::Platform => encode_byte(2, out),
            Key::Flash => encode_byte(3, out),
            Key::Choice(built) => {
                encode_byte(4, out)?;
                ModuleEncoding::encode(built, out)
            }
            Key::PlatformPcds => encode_byte(5, out),
            Key::Values(built) => {
                encode_byte(6, out)?;
                ModuleEncoding::encode(built, out)
            }
            Key::Code(built) => {
                encode_byte(7, out)?;
                ModuleEncoding::encode(built, out)
            }
            Key::Depex(built) => {
                encode_byte(8, out)?;
                ModuleEncoding::encode(built, out)
            }
            Key::File(volume, item) => {
                encode_byte(9, out)?;
                u32::encode(volume, out)?;
                u32::encode(item, out)
            }
            Key::Volume(number) => {
                encode_byte(10, out)?;
                u32::encode(number, out)
            }
            Key::Device(number) => {
                encode_byte(11, out)?;
                u32::encode(number, out)
            }
            Key::Report => encode_byte(12, out),
            Key::All => encode_byte(13, out),
            Key::Vpd => encode_byte(14, out),
            Key::Based(number) => {
                encode_byte(15, out)?;
                u32::encode(number, out)
            }
        }
    }

    #[tactic(auto, unfolding(crate::specs::Key::key_encoding, packed_values::specs::Arms::tagged_encoding, packed_values::specs::Arms::arm, packed_values::specs::Arms::last_arm, packed_values::specs::Arms::unit_encoding, packed_values::specs::Plain::byte_encoding))]
    fn decode(alloc: Global, input: &mut Input) -> Result<Option<Key>, WantOfMemory> {
        match input.byte() {
            Some(0) => match Path::decode(alloc, input)? {
                None => Ok(None),
                Some(path) => Ok(Some(Key::Dec(path))),
            },
            Some(1) => match Path::decode(alloc, input)? {
                None => Ok(None),
                Some(path) => Ok(Some(Key::Inf(path))),
            },
            Some(2) => Ok(Some(Key::Platform)),
            Some(3) => Ok(Some(Key::Flash)),
            Some(4) => match ModuleEncoding::decode(alloc, input)? {
                None => Ok(None),
                Some(built) => Ok(Some(Key::Choice(built))),
            },
            Some(5) => Ok(Some(Key::PlatformPcds)),
            Some(6) => match ModuleEncoding::decode(alloc, input)? {
                None => Ok(None),
                Some(built) => Ok(Some(Key::Values(built))),
            },
            Some(7) => match ModuleEncoding::decode(alloc, input)? {
                None => Ok(None),
                Some(built) => Ok(Some(Key::Code(built))),
            },
            Some(8) => match ModuleEncoding::decode(alloc, input)? {
                None => Ok(None),
                Some(built) => Ok(Some(Key::Depex(built))),
            },
            Some(9) => match <(u32, u32)>::decode(alloc, input)? {
                None => Ok(None),
                Some((volume, item)) => Ok(Some(Key::File(volume, item))),
            },
            Some(10) => match u32::decode(alloc, input)? {
                None => Ok(None),
                Some(number) => Ok(Some(Key::Volume(number))),
            },
            Some(11) => match u32::decode(alloc, input)? {
                None => Ok(None),
                Some(number) => Ok(Some(Key::Device(number))),
            },
            Some(12) => Ok(Some(Key::Report)),
            Some(13) => Ok(Some(Key::All)),
            Some(14) => Ok(Some(Key::Vpd)),
            Some(15) => match u32::decode(alloc, input)? {
                None => Ok(None),
                Some(number) => Ok(Some(Key::Based(number))),
            },
            _ => Ok(None),
        }
    }
}
