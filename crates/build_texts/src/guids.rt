//! How a GUID prints.
ghost use Rattle.std.specs.Prelude.{◌≡◌, ◌++◌, ◌∷◌, [], codes, take, drop, OnOk};
ghost use Rattle.std.specs.List.{flat_map};
ghost use Rattle.pcd_values.specs.Printing.{number_text};
ghost use Rattle.build_texts.specs.Guids.{guid_text, byte_numbers, initializer};

use build_base::{Guid, WantOfMemory};
use doc_types::pcd::Datum;
use pcd_values::{print_value, put_byte_number};
use std::alloc::{AllocError, Global};
use uuid::Uuid;

/// Adds a GUID as the registry writes it, in lower case.
#[tactic(auto, unfolding(crate::specs::Guids::guid_text))]
pub fn put_guid(out: &mut Vec<u8>, guid: &Guid) -> Result<(), AllocError>
    ensures { OnOk result (out.new.items ≡ out.old.items ++ guid_text guid.now) }
{
    let mut buffer = [0; 36];
    let id = Uuid::from_bytes_le(guid.0).hyphenated();
    out.extend_from_slice(id.encode_lower(&mut buffer).as_bytes())?;
    Ok(())
}

/// Adds the number of little-endian bytes.
#[tactic(auto, unfolding(pcd_values::specs::Printing::printed))]
pub fn put_number(alloc: Global, out: &mut Vec<u8>, bytes: &[u8]) -> Result<(), WantOfMemory>
    ensures { OnOk result (out.new.items ≡ out.old.items ++ number_text bytes.now) }
{
    let text = print_value(alloc, Datum::U64, bytes)?;
    out.extend_from_slice(text.bytes())?;
    Ok(())
}

fn put_rest(out: &mut Vec<u8>, bytes: &[u8]) -> Result<(), AllocError>
    ensures { OnOk result (out.new.items ≡ out.old.items
        ++ flat_map (λ c. codes ", " ++ number_text (c ∷ [])) bytes.now) }
{
    let mut left = bytes;
    while let [byte, rest @ ..] = left {
        out.extend_from_slice(b", ")?;
        put_byte_number(out, *byte)?;
        left = rest;
    }
    Ok(())
}

fn put_bytes(out: &mut Vec<u8>, bytes: &[u8]) -> Result<(), AllocError>
    ensures { OnOk result (out.new.items ≡ out.old.items ++ byte_numbers bytes.now) }
{
    match bytes {
        [] => Ok(()),
        [first, rest @ ..] => {
            put_byte_number(out, *first)?;
            put_rest(out, rest)?;
            Ok(())
        }
    }
}

fn put_first(alloc: Global, out: &mut Vec<u8>, guid: &[u8; 16]) -> Result<(), WantOfMemory>
    ensures { OnOk result (out.new.items ≡ out.old.items ++ number_text (take 4 guid.now)) }
{
    put_number(alloc, out, &guid[..4])?;
    Ok(())
}

fn put_second(alloc: Global, out: &mut Vec<u8>, guid: &[u8; 16]) -> Result<(), WantOfMemory>
    ensures { OnOk result (out.new.items ≡ out.old.items
        ++ number_text (take 2 (drop 4 guid.now))) }
{
    put_number(alloc, out, &guid[4..6])?;
    Ok(())
}

fn put_third(alloc: Global, out: &mut Vec<u8>, guid: &[u8; 16]) -> Result<(), WantOfMemory>
    ensures { OnOk result (out.new.items ≡ out.old.items
        ++ number_text (take 2 (drop 6 guid.now))) }
{
    put_number(alloc, out, &guid[6..8])?;
    Ok(())
}

fn put_last(out: &mut Vec<u8>, guid: &[u8; 16]) -> Result<(), AllocError>
    ensures { OnOk result (out.new.items ≡ out.old.items ++ byte_numbers (drop 8 guid.now)) }
{
    let (_, last) = guid.as_slice().split_at(8);
    put_bytes(out, last)?;
    Ok(())
}

/// Adds a GUID's bytes as an initializer in C.
#[tactic(auto, unfolding(crate::specs::Guids::initializer))]
pub(crate) fn put_initializer(
    alloc: Global,
    out: &mut Vec<u8>,
    guid: &[u8; 16],
) -> Result<(), WantOfMemory>
    ensures { OnOk result (out.new.items ≡ out.old.items ++ initializer guid.now) }
{
    out.extend_from_slice(b"{")?;
    put_first(alloc, out, guid)?;
    out.extend_from_slice(b", ")?;
    put_second(alloc, out, guid)?;
    out.extend_from_slice(b", ")?;
    put_third(alloc, out, guid)?;
    out.extend_from_slice(b", {")?;
    put_last(out, guid)?;
    out.extend_from_slice(b"}}")?;
    Ok(())
}
