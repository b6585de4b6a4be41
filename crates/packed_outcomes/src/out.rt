//! What steps give.
ghost use Rattle.std.specs.Prelude.{◌≡◌, ◌<◌, ◌≤◌, ◌++◌, ◌∷◌, IfOk};
ghost use Rattle.packed_values.specs.Encoding.{Decodes, IsAppended, IsRead, IsUnread};
ghost use Rattle.packed_outcomes.specs.Out.{out_encoding, output_encoding};

use crate::key::KeyEncoding;
use build_base::{Image, Path, Rows, Text, WantOfMemory};
use packed_documents::flash::FlashDocEncoding;
use packed_documents::made::{
    ChoiceEncoding, FileImageEncoding, TextsEncoding, ValuesEncoding, VpdEncoding,
};
use packed_documents::module::InfDocEncoding;
use packed_documents::package::DecDocEncoding;
use packed_documents::platform::PlatformDocEncoding;
use packed_values::plain::encode_byte;
use packed_values::{Encode, Input, decode_fields, encode_fields};
use shared_value::Shared;
use std::alloc::Global;
use step_pack::{Out, Output};

/// How a value of `Output` is encoded.
pub(crate) struct OutputEncoding;

impl Encode for OutputEncoding {
    type Value = Output;

    ghost encoding = { output_encoding };

    #[tactic(auto, unfolding(crate::specs::Out::output_encoding, packed_values::specs::Parts::pair_encoding))]
    fn encode(value: &Output, out: &mut Vec<u8>) -> Result<(), WantOfMemory> {
        encode_fields!(value, out; path: Path, from: KeyEncoding, part: u8)
    }

    #[tactic(auto, unfolding(crate::specs::Out::output_encoding), using(packed_values::proofs::WhereLemmas::unread_by))]
    fn decode(alloc: Global, input: &mut Input) -> Result<Option<Output>, WantOfMemory> {
        decode_fields!(Output, alloc, input; path: Path, from: KeyEncoding, part: u8)
    }
}

// What stands behind the tag of documents, libraries, values or texts.
#[tactic(auto, unfolding(crate::specs::Out::out_encoding, packed_values::specs::Arms::tagged_encoding, packed_values::specs::Arms::arm, packed_values::specs::Arms::last_arm, packed_values::specs::Plain::byte_encoding))]
fn decode_told(alloc: Global, input: &mut Input, tag: u8) -> Result<Option<Out>, WantOfMemory>
    requires { tag < 7 }
    ensures { IfOk result (λ r. Decodes out_encoding (tag ∷ input.old) r input.new) }
{
    match tag {
        0 => match <Shared<DecDocEncoding>>::decode(alloc, input)? {
            None => Ok(None),
            Some(document) => Ok(Some(Out::Dec(document))),
        },
        1 => match <Shared<InfDocEncoding>>::decode(alloc, input)? {
            None => Ok(None),
            Some(document) => Ok(Some(Out::Inf(document))),
        },
        2 => match <Shared<PlatformDocEncoding>>::decode(alloc, input)? {
            None => Ok(None),
            Some(document) => Ok(Some(Out::Platform(document))),
        },
        3 => match <Shared<FlashDocEncoding>>::decode(alloc, input)? {
            None => Ok(None),
            Some(document) => Ok(Some(Out::Flash(document))),
        },
        4 => match ChoiceEncoding::decode(alloc, input)? {
            None => Ok(None),
            Some(choice) => Ok(Some(Out::Choice(choice))),
        },
        5 => match <Shared<ValuesEncoding>>::decode(alloc, input)? {
            None => Ok(None),
            Some(values) => Ok(Some(Out::Values(values))),
        },
        6 => match <Option<TextsEncoding> as Encode>::decode(alloc, input)? {
            None => Ok(None),
            Some(texts) => Ok(Some(Out::Code(texts))),
        },
        _ => Ok(None),
    }
}

// What stands behind any other tag.
#[tactic(auto, unfolding(crate::specs::Out::out_encoding, packed_values::specs::Arms::tagged_encoding, packed_values::specs::Arms::arm, packed_values::specs::Arms::last_arm, packed_values::specs::Plain::byte_encoding))]
fn decode_made(alloc: Global, input: &mut Input, tag: u8) -> Result<Option<Out>, WantOfMemory>
    requires { 7 ≤ tag }
    ensures { IfOk result (λ r. Decodes out_encoding (tag ∷ input.old) r input.new) }
{
    match tag {
        7 => match Text::decode(alloc, input)? {
            None => Ok(None),
            Some(bytes) => Ok(Some(Out::Depex(bytes))),
        },
        8 => match FileImageEncoding::decode(alloc, input)? {
            None => Ok(None),
            Some(file) => Ok(Some(Out::File(file))),
        },
        9 => match Image::decode(alloc, input)? {
            None => Ok(None),
            Some(image) => Ok(Some(Out::Volume(image))),
        },
        10 => match Image::decode(alloc, input)? {
            None => Ok(None),
            Some(image) => Ok(Some(Out::Device(image))),
        },
        11 => match Text::decode(alloc, input)? {
            None => Ok(None),
            Some(text) => Ok(Some(Out::Report(text))),
        },
        12 => match <Rows<OutputEncoding>>::decode(alloc, input)? {
            None => Ok(None),
            Some(outputs) => Ok(Some(Out::All(outputs))),
        },
        13 => match VpdEncoding::decode(alloc, input)? {
            None => Ok(None),
            Some(image) => Ok(Some(Out::Vpd(image))),
        },
        _ => Ok(None),
    }
}

/// How a value of `Out` is encoded.
pub(crate) struct OutEncoding;

impl Encode for OutEncoding {
    type Value = Out;

    ghost encoding = { out_encoding };

    #[tactic(auto, unfolding(crate::specs::Out::out_encoding, packed_values::specs::Arms::tagged_encoding, packed_values::specs::Arms::arm, packed_values::specs::Arms::last_arm, packed_values::specs::Plain::byte_encoding))]
    fn encode(value: &Out, out: &mut Vec<u8>) -> Result<(), WantOfMemory> {
        match value {
            Out::Dec(document) => {
                encode_byte(0, out)?;
                <Shared<DecDocEncoding>>::encode(document, out)
            }
            Out::Inf(document) => {
                encode_byte(1, out)?;
                <Shared<InfDocEncoding>>::encode(document, out)
            }
            Out::Platform(document) => {
                encode_byte(2, out)?;
                <Shared<PlatformDocEncoding>>::encode(document, out)
            }
            Out::Flash(document) => {
                encode_byte(3, out)?;
                <Shared<FlashDocEncoding>>::encode(document, out)
            }
            Out::Choice(choice) => {
                encode_byte(4, out)?;
                ChoiceEncoding::encode(choice, out)
            }
            Out::Values(values) => {
                encode_byte(5, out)?;
                <Shared<ValuesEncoding>>::encode(values, out)
            }
            Out::Code(texts) => {
                encode_byte(6, out)?;
                <Option<TextsEncoding> as Encode>::encode(texts, out)
            }
            Out::Depex(bytes) => {
                encode_byte(7, out)?;
                Text::encode(bytes, out)
            }
            Out::File(file) => {
                encode_byte(8, out)?;
                FileImageEncoding::encode(file, out)
            }
            Out::Volume(image) => {
                encode_byte(9, out)?;
                Image::encode(image, out)
            }
            Out::Device(image) => {
                encode_byte(10, out)?;
                Image::encode(image, out)
            }
            Out::Report(text) => {
                encode_byte(11, out)?;
                Text::encode(text, out)
            }
            Out::All(outputs) => {
                encode_byte(12, out)?;
                <Rows<OutputEncoding>>::encode(outputs, out)
            }
            Out::Vpd(image) => {
                encode_byte(13, out)?;
                VpdEncoding::encode(image, out)
            }
        }
    }

    #[tactic(auto, unfolding(crate::specs::Out::out_encoding, packed_values::specs::Arms::tagged_encoding, packed_values::specs::Arms::arm, packed_values::specs::Arms::last_arm, packed_values::specs::Plain::byte_encoding))]
    fn decode(alloc: Global, input: &mut Input) -> Result<Option<Out>, WantOfMemory> {
        match input.byte() {
            None => Ok(None),
            Some(tag) if tag < 7 => decode_told(alloc, input, tag),
            Some(tag) => decode_made(alloc, input, tag),
        }
    }
}
