//! Numbers and truth values.
ghost use Rattle.std.specs.Prelude.{◌≡◌, length, OnOk, ◌++◌};
ghost use Rattle.std.specs.Int.{bytes_low_first};
ghost use Rattle.packed_values.specs.Encoding.{IsAppended, IsRead, IsUnread};
ghost use Rattle.packed_values.specs.Plain.{byte_encoding, number_encoding, bool_encoding};

use crate::encode::Encode;
use crate::input::Input;
use build_base::WantOfMemory;
use std::alloc::Global;

/// Adds the encoding of a byte.
#[tactic(auto, unfolding(crate::specs::Plain::byte_encoding))]
pub fn encode_byte(byte: u8, out: &mut Vec<u8>) -> Result<(), WantOfMemory>
    ensures { OnOk result (IsAppended byte_encoding out.old.items byte out.new.items) }
{
    if out.push(byte).is_err() {
        return Err(WantOfMemory);
    }
    Ok(())
}

#[tactic(auto, unfolding(crate::specs::Plain::byte_encoding))]
impl Encode for u8 {
    type Value = u8;

    ghost encoding = { byte_encoding };

    fn encode(value: &u8, out: &mut Vec<u8>) -> Result<(), WantOfMemory> {
        encode_byte(*value, out)
    }

    fn decode(_alloc: Global, input: &mut Input) -> Result<Option<u8>, WantOfMemory> {
        Ok(input.byte())
    }
}

#[tactic(auto, unfolding(crate::specs::Plain::bool_encoding, crate::specs::Plain::byte_encoding))]
impl Encode for bool {
    type Value = bool;

    ghost encoding = { bool_encoding };

    fn encode(value: &bool, out: &mut Vec<u8>) -> Result<(), WantOfMemory> {
        encode_byte(if *value { 1 } else { 0 }, out)
    }

    fn decode(_alloc: Global, input: &mut Input) -> Result<Option<bool>, WantOfMemory> {
        match input.byte() {
            Some(0) => Ok(Some(false)),
            Some(1) => Ok(Some(true)),
            _ => Ok(None),
        }
    }
}

fn u16_of(own: [u8; 2]) -> u16
    ensures { bytes_low_first 0 2 result ≡ own }
{
    u16::from_le_bytes(own)
}

fn u32_of(own: [u8; 4]) -> u32
    ensures { bytes_low_first 0 4 result ≡ own }
{
    u32::from_le_bytes(own)
}

fn u64_of(own: [u8; 8]) -> u64
    ensures { bytes_low_first 0 8 result ≡ own }
{
    u64::from_le_bytes(own)
}

#[tactic(auto, unfolding(crate::specs::Plain::number_encoding))]
impl Encode for u16 {
    type Value = u16;

    ghost encoding = { number_encoding 2 };

    fn encode(value: &u16, out: &mut Vec<u8>) -> Result<(), WantOfMemory> {
        out.extend_from_slice(value.to_le_bytes().as_slice())?;
        Ok(())
    }

    fn decode(_alloc: Global, input: &mut Input) -> Result<Option<u16>, WantOfMemory> {
        match input.bytes(2) {
            None => Ok(None),
            Some(bytes) => {
                let mut own = [0; 2];
                own.copy_from_slice(bytes);
                Ok(Some(u16_of(own)))
            }
        }
    }
}

#[tactic(auto, unfolding(crate::specs::Plain::number_encoding))]
impl Encode for u32 {
    type Value = u32;

    ghost encoding = { number_encoding 4 };

    fn encode(value: &u32, out: &mut Vec<u8>) -> Result<(), WantOfMemory> {
        out.extend_from_slice(value.to_le_bytes().as_slice())?;
        Ok(())
    }

    fn decode(_alloc: Global, input: &mut Input) -> Result<Option<u32>, WantOfMemory> {
        match input.bytes(4) {
            None => Ok(None),
            Some(bytes) => {
                let mut own = [0; 4];
                own.copy_from_slice(bytes);
                Ok(Some(u32_of(own)))
            }
        }
    }
}

#[tactic(auto, unfolding(crate::specs::Plain::number_encoding))]
impl Encode for u64 {
    type Value = u64;

    ghost encoding = { number_encoding 8 };

    fn encode(value: &u64, out: &mut Vec<u8>) -> Result<(), WantOfMemory> {
        out.extend_from_slice(value.to_le_bytes().as_slice())?;
        Ok(())
    }

    fn decode(_alloc: Global, input: &mut Input) -> Result<Option<u64>, WantOfMemory> {
        match input.bytes(8) {
            None => Ok(None),
            Some(bytes) => {
                let mut own = [0; 8];
                own.copy_from_slice(bytes);
                Ok(Some(u64_of(own)))
            }
        }
    }
}
