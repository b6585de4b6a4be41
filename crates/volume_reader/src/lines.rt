//! The lines of a listing.
ghost use Rattle.std.specs.Prelude.{◌≡◌, ◌<◌, true, ◌++◌, OnOk};
ghost use Rattle.std.specs.Fmt.{digit_glyph};
ghost use Rattle.volume_reader.specs.Lines.{hex, two_digits, guid_text, blanks, file_system_word, volume_line, pad_line, file_line, section_line, free_line};

use crate::listed::{Listed, ListedSection, VolumeList};
use build_base::bytes::fill;
use build_base::{Guid, WantOfMemory};
use std::alloc::Global;
use uuid::Uuid;

/// Adds a number in hexadecimal, in capitals and without leading zeros.
#[tactic(auto, unfolding(crate::specs::Lines::hex))]
pub fn put_hex(alloc: Global, out: &mut Vec<u8>, n: u64) -> Result<(), WantOfMemory>
    ensures { OnOk result (out.new.items ≡ out.old.items ++ hex n) }
{
    let digits = format!(in alloc; "{n:X}")?;
    out.extend_from_slice(b"0x")?;
    out.extend_from_slice(digits.as_bytes())?;
    Ok(())
}

// The digit of a number below sixteen.
fn digit(n: u8) -> u8
    requires { n < 16 }
    ensures { result ≡ digit_glyph true n }
{
    if n < 10 { b'0' + n } else { b'A' + (n - 10) }
}

#[tactic(auto, unfolding(crate::specs::Lines::two_digits))]
fn put_byte(out: &mut Vec<u8>, byte: u8) -> Result<(), WantOfMemory>
    ensures { OnOk result (out.new.items ≡ out.old.items ++ two_digits byte) }
{
    let high = digit(byte / 16);
    let low = digit(byte % 16);
    out.extend_from_slice(&[high, low])?;
    Ok(())
}

#[tactic(auto, unfolding(crate::specs::Lines::guid_text))]
fn put_guid(out: &mut Vec<u8>, guid: &Guid) -> Result<(), WantOfMemory>
    ensures { OnOk result (out.new.items ≡ out.old.items ++ guid_text guid.now) }
{
    let mut buffer = [0; 36];
    let id = Uuid::from_bytes_le(guid.0).hyphenated();
    out.extend_from_slice(id.encode_lower(&mut buffer).as_bytes())?;
    Ok(())
}

#[tactic(auto, unfolding(crate::specs::Lines::blanks))]
fn put_blanks(out: &mut Vec<u8>, indent: u64) -> Result<(), WantOfMemory>
    ensures { OnOk result (out.new.items ≡ out.old.items ++ blanks indent) }
{
    fill(out, indent, b' ')
}

fn file_system_word(ffs3: bool) -> &'static [u8]
    ensures { result.now ≡ file_system_word ffs3 }
{
    if ffs3 {
        b"FFS3".as_slice()
    } else {
        b"FFS2".as_slice()
    }
}

/// Adds the line of a volume that stands at an offset.
#[tactic(auto, unfolding(crate::specs::Lines::volume_line))]
pub(crate) fn put_volume_line(
    alloc: Global,
    out: &mut Vec<u8>,
    indent: u64,
    offset: u64,
    list: &VolumeList,
) -> Result<(), WantOfMemory>
    ensures { OnOk result (out.new.items ≡ out.old.items ++ volume_line indent offset list.now) }
{
    put_blanks(out, indent)?;
    out.extend_from_slice(b"volume ")?;
    put_hex(alloc, out, offset)?;
    out.extend_from_slice(b" ")?;
    put_hex(alloc, out, list.length)?;
    out.extend_from_slice(b" ")?;
    out.extend_from_slice(file_system_word(list.ffs3))?;
    out.extend_from_slice(b"\n")?;
    Ok(())
}

/// Adds the line of a pad file.
#[tactic(auto, unfolding(crate::specs::Lines::pad_line))]
pub(crate) fn put_pad_line(
    alloc: Global,
    out: &mut Vec<u8>,
    indent: u64,
    file: &Listed,
) -> Result<(), WantOfMemory>
    ensures { OnOk result (out.new.items ≡ out.old.items ++ pad_line indent file.now) }
{
    put_blanks(out, indent)?;
    out.extend_from_slice(b"pad ")?;
    put_hex(alloc, out, file.place)?;
    out.extend_from_slice(b" ")?;
    put_hex(alloc, out, file.size)?;
    out.extend_from_slice(b"\n")?;
    Ok(())
}

/// Adds the line of a file.
#[tactic(auto, unfolding(crate::specs::Lines::file_line))]
pub(crate) fn put_file_line(
    alloc: Global,
    out: &mut Vec<u8>,
    indent: u64,
    file: &Listed,
) -> Result<(), WantOfMemory>
    ensures { OnOk result (out.new.items ≡ out.old.items ++ file_line indent file.now) }
{
    put_blanks(out, indent)?;
    out.extend_from_slice(b"file ")?;
    put_hex(alloc, out, file.place)?;
    out.extend_from_slice(b" ")?;
    put_guid(out, &file.guid)?;
    out.extend_from_slice(b" ")?;
    put_byte(out, file.file_type)?;
    out.extend_from_slice(b" ")?;
    put_hex(alloc, out, file.size)?;
    out.extend_from_slice(b"\n")?;
    Ok(())
}

/// Adds the line of a section.
#[tactic(auto, unfolding(crate::specs::Lines::section_line))]
pub(crate) fn put_section_line(
    alloc: Global,
    out: &mut Vec<u8>,
    indent: u64,
    section: &ListedSection,
) -> Result<(), WantOfMemory>
    ensures { OnOk result (out.new.items ≡ out.old.items ++ section_line indent section.now) }
{
    put_blanks(out, indent)?;
    out.extend_from_slice(b"section ")?;
    put_byte(out, section.kind)?;
    out.extend_from_slice(b" ")?;
    put_hex(alloc, out, section.size)?;
    out.extend_from_slice(b"\n")?;
    Ok(())
}

/// Adds the line of so many free bytes.
#[tactic(auto, unfolding(crate::specs::Lines::free_line))]
pub(crate) fn put_free_line(
    alloc: Global,
    out: &mut Vec<u8>,
    indent: u64,
    free: u64,
) -> Result<(), WantOfMemory>
    ensures { OnOk result (out.new.items ≡ out.old.items ++ free_line indent free) }
{
    put_blanks(out, indent)?;
    out.extend_from_slice(b"free ")?;
    put_hex(alloc, out, free)?;
    out.extend_from_slice(b"\n")?;
    Ok(())
}
