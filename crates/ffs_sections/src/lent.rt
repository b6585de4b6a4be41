//! Sections before their file is made: what they hold is lent, and stands where it stood.
ghost use Rattle.std.specs.Prelude.{◌≡◌, ◌<◌, ◌^◌, ◌++◌, length, IfOk, OnOk};

use build_base::{Guid, Image, Text, WantOfMemory};
use doc_types::image::Part;
use std::marker::Model;

/// Where the bytes of a content stand.
#[derive(Drop)]
enum Held<'a> {
    Bytes(&'a [u8]),
    Text(Text),
    Image(&'a Image),
    Joined(Text, &'a [u8]),
}

/// What a section holds, seen as its bytes.
#[derive(Drop)]
pub struct LentContent<'a> {
    held: Held<'a>,
}

impl<'a> Model for LentContent<'a> {
    ghost use Rattle.std.specs.Prelude.{List, ℕ, ◌<◌, ◌^◌, length};
    ghost use Rattle.ffs_sections.specs.Lent.{held_bytes};

    ghost Value = { List ℕ };

    ghost view = { λ c. held_bytes c.held };

    ghost invariant = { λ c. length (held_bytes c.held) < 2 ^ 63 };
}

impl<'a> LentContent<'a> {
    /// The bytes of a file.
    pub fn of_bytes(bytes: &'a [u8]) -> LentContent<'a>
        ensures { result ≡ bytes.now }
    {
        LentContent {
            held: Held::Bytes(bytes),
        }
    }

    /// A text that is made for this section alone.
    pub fn of_text(text: Text) -> LentContent<'a>
        ensures { result ≡ text }
    {
        LentContent {
            held: Held::Text(text),
        }
    }

    /// The bytes of a volume. No memory holds an image of 2^63 bytes as they are.
    pub fn of_image(image: &'a Image) -> Result<LentContent<'a>, WantOfMemory>
        ensures { IfOk result (λ content. content ≡ image.now) }
    {
        if image.length() >= 0x8000_0000_0000_0000 {
            return Err(WantOfMemory);
        }
        Ok(LentContent {
            held: Held::Image(image),
        })
    }

    /// A text and the bytes behind it, which are a part of a file.
    pub fn of_parts(front: Text, back: &'a [u8]) -> Result<LentContent<'a>, WantOfMemory>
        ensures { IfOk result (λ content. content ≡ front ++ back.now) }
    {
        if front.bytes().len() as u64 + back.len() as u64 >= 0x8000_0000_0000_0000 {
            return Err(WantOfMemory);
        }
        Ok(LentContent {
            held: Held::Joined(front, back),
        })
    }

    /// How many bytes it has.
    pub(crate) fn length(&self) -> u64
        ensures value { result ≡ length self.now }
        ensures short { result < 2 ^ 63 }
    {
        match &self.held {
            Held::Bytes(bytes) => bytes.len() as u64,
            Held::Text(text) => text.bytes().len() as u64,
            Held::Image(image) => image.length(),
            Held::Joined(front, back) => front.bytes().len() as u64 + back.len() as u64,
        }
    }

    /// Appends its bytes.
    pub(crate) fn put(&self, out: &mut Vec<u8>) -> Result<(), WantOfMemory>
        ensures { OnOk result (out.new.items ≡ out.old.items ++ self.now) }
    {
        match &self.held {
            Held::Bytes(bytes) => {
                out.extend_from_slice(bytes)?;
                Ok(())
            }
            Held::Text(text) => {
                out.extend_from_slice(text.bytes())?;
                Ok(())
            }
            Held::Image(image) => put_image(image, out),
            Held::Joined(front, back) => {
                out.extend_from_slice(front.bytes())?;
                out.extend_from_slice(back)?;
                Ok(())
            }
        }
    }
}

// Appends the bytes of an image.
fn put_image(image: &Image, out: &mut Vec<u8>) -> Result<(), WantOfMemory>
    ensures { OnOk result (out.new.items ≡ out.old.items ++ image.now) }
{
    let mut pieces = image.pieces();
    while let Some(piece) = pieces.next() {
        out.extend_from_slice(piece)?;
    }
    Ok(())
}

/// A section of a file, as `Part`, whose content is lent.
#[derive(Drop)]
pub struct LentPart<'a> {
    pub kind: u8,
    pub guid: Option<Guid>,
    pub align: u32,
    pub shift: u32,
    pub content: LentContent<'a>,
}

impl<'a> Model for LentPart<'a> {
    ghost use Rattle.doc_types.specs.declared.image.Part.{Part};

    ghost Value = { Part };

    ghost view = { λ p. record {
      kind = p.kind;
      guid = p.guid;
      align = p.align;
      shift = p.shift;
      bytes = p.content;
    } };
}

impl<'a> LentPart<'a> {
    /// A part whose content is lent.
    pub fn of(part: &'a Part) -> LentPart<'a>
        ensures { result ≡ part.now }
    {
        LentPart {
            kind: part.kind,
            guid: part.guid,
            align: part.align,
            shift: part.shift,
            content: LentContent::of_bytes(part.bytes.bytes()),
        }
    }
}
