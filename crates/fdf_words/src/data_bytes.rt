//! Bytes as they are listed in braces.
ghost use Rattle.std.specs.Prelude.{◌≡◌, IfOk, ◌++◌, ◌∷◌, [], OnOk, false};
ghost use Rattle.std.specs.Option.{option_map};
ghost use Rattle.meta_lexer.specs.Fields.{parts_of};
ghost use Rattle.fdf_words.specs.DataBytes.{byte_field, byte_list, data_of};

use build_base::{Text, WantOfMemory};
use meta_lexer::field::split_unquoted;
use meta_lexer::head::{bytes_at, strip_delimiters};
use meta_lexer::line::trim;
use meta_lexer::numbers::number;
use std::alloc::Global;

fn byte_field(text: &[u8]) -> Option<u8>
    ensures { result ≡ byte_field text.now }
{
    match number(trim(text)) {
        Some(number) => {
            if number < 256 {
                Some(number as u8)
            } else {
                None
            }
        }
        None => None,
    }
}

fn push_byte(bytes: &mut Vec<u8>, byte: u8) -> Result<(), WantOfMemory>
    ensures { OnOk result (bytes.new.items ≡ bytes.old.items ++ byte ∷ []) }
{
    match bytes.push(byte) {
        Ok(()) => Ok(()),
        Err(_) => Err(WantOfMemory),
    }
}

fn byte_list(alloc: Global, text: &[u8]) -> Result<Option<Vec<u8>>, WantOfMemory>
    ensures { IfOk result (λ o. option_map (λ v. v.items) o
        ≡ byte_list text.now (parts_of false 44 text.now)) }
{
    let spans = split_unquoted(alloc, false, b',', text)?;
    let mut bytes = Vec::new(alloc);
    for span in &spans {
        match byte_field(bytes_at(text, span)) {
            Some(byte) => push_byte(&mut bytes, byte)?,
            None => return Ok(None),
        }
    }
    Ok(Some(bytes))
}

/// The bytes of `{ number, number }`, or nothing where the text isn't of this form.
#[tactic(auto, unfolding(crate::specs::DataBytes::data_of))]
pub fn data_of(alloc: Global, text: &[u8]) -> Result<Option<Text>, WantOfMemory>
    ensures { IfOk result (λ o. o ≡ data_of text.now) }
{
    match strip_delimiters(b'{', b'}', text) {
        Some(inner) => match byte_list(alloc, inner)? {
            Some(bytes) => Ok(Some(Text::from_vec(bytes))),
            None => Ok(None),
        },
        None => Ok(None),
    }
}
