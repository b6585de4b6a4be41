//! Images, which are encoded as texts.
ghost use Rattle.std.specs.Prelude.{◌≡◌, ◌++◌, ◌<◌, ◌^◌, length, OnOk, IfOk};
ghost use Rattle.packed_values.specs.Encoding.{IsAppended, IsRead, IsUnread};
ghost use Rattle.packed_values.specs.Plain.{text_encoding};

use crate::bytes::decode_text;
use crate::encode::Encode;
use crate::input::Input;
use build_base::{Image, Rows, Run, Text, WantOfMemory};
use std::alloc::Global;

// Adds the bytes of an image.
fn put_pieces(image: &Image, out: &mut Vec<u8>) -> Result<(), WantOfMemory>
    ensures { OnOk result (out.new.items ≡ out.old.items ++ image.now) }
{
    out.reserve(image.length() as usize)?;
    let mut pieces = image.pieces();
    while let Some(piece) = pieces.next() {
        out.extend_from_slice(piece)?;
    }
    Ok(())
}

// The image of the bytes of a text.
#[tactic(auto, unfolding(build_base::specs::Runs::runs_bytes, build_base::specs::Runs::are_blank))]
fn image_of(alloc: Global, text: Text) -> Result<Image, WantOfMemory>
    ensures { IfOk result (λ image. image ≡ text) }
{
    let mut runs = Rows::new(alloc);
    runs.push(Run::Bytes(text))?;
    Ok(Image::of_runs(runs))
}

impl Encode for Image {
    type Value = Image;

    ghost encoding = { text_encoding };

    #[tactic(auto, unfolding(crate::specs::Plain::text_encoding, crate::specs::Plain::number_encoding))]
    fn encode(value: &Image, out: &mut Vec<u8>) -> Result<(), WantOfMemory> {
        u64::encode(&value.length(), out)?;
        put_pieces(value, out)
    }

    fn decode(alloc: Global, input: &mut Input) -> Result<Option<Image>, WantOfMemory> {
        match decode_text(alloc, input)? {
            None => Ok(None),
            Some(text) => Ok(Some(image_of(alloc, text)?)),
        }
    }
}
