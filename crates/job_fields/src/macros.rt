//! The macros that the fields of a job define.
ghost use Rattle.std.specs.Prelude.{◌≡◌, ◌<◌, ◌==◌, ◌++◌, ◌∷◌, [], length, map, IfOk, OnOk, IfSome};
ghost use Rattle.std.specs.List.{position};
ghost use Rattle.job_fields.specs.Readings.{macro_of, macros_in, or_default, target_in, tag_in, target_of, tag_of, macros_of_job};

use crate::readings::texts_in;
use build_base::{Macro, Rows, Text, WantOfMemory};
use std::alloc::Global;

fn equals_at(text: &[u8]) -> Option<usize>
    ensures at { result ≡ position (λ byte. byte == 61) text.now }
    ensures within { IfSome result (λ at. at < length text.now) }
{
    text.iter().position(|byte| *byte == b'=')
}

/// The name and the value of a text `NAME=VALUE` or `NAME`.
#[tactic(auto, unfolding(crate::specs::Readings::macro_of))]
pub fn split_define(text: &[u8]) -> (&[u8], &[u8])
    ensures name { result.0.now ≡ (macro_of text.now).name }
    ensures value { result.1.now ≡ (macro_of text.now).value }
{
    match equals_at(text) {
        Some(at) => (&text[..at], &text[at + 1..]),
        None => (text, b"TRUE".as_slice()),
    }
}

fn new_macro(alloc: Global, name: &[u8], value: &[u8]) -> Result<Macro, WantOfMemory>
    ensures { IfOk result (λ m. m ≡ record { name = name.now; value = value.now }) }
{
    Ok(Macro {
        name: Text::of(alloc, name)?,
        value: Text::of(alloc, value)?,
    })
}

/// The macro of a text `NAME=VALUE`, or `NAME`, whose value is TRUE.
pub fn macro_of(alloc: Global, text: &[u8]) -> Result<Macro, WantOfMemory>
    ensures { IfOk result (λ m. m ≡ macro_of text.now) }
{
    let (name, value) = split_define(text);
    new_macro(alloc, name, value)
}

fn each_macro(alloc: Global, texts: &[Text]) -> Result<Rows<Macro>, WantOfMemory>
    ensures { IfOk result (λ ms. ms ≡ map macro_of texts.now) }
{
    let mut macros = Rows::new(alloc);
    for text in texts {
        macros.push(macro_of(alloc, text.bytes())?)?;
    }
    Ok(macros)
}

/// The macros of texts that line feeds join.
#[tactic(auto, unfolding(crate::specs::Readings::macros_in))]
pub fn macros_in(alloc: Global, text: &[u8]) -> Result<Rows<Macro>, WantOfMemory>
    ensures { IfOk result (λ ms. ms ≡ macros_in text.now) }
{
    let texts = texts_in(alloc, text)?;
    each_macro(alloc, texts.items())
}

/// A text, or another one in place of an empty one.
pub fn or_default<'a>(text: &'a [u8], default: &'a [u8]) -> &'a [u8]
    ensures { result.now ≡ or_default text.now default.now }
{
    if text.is_empty() { default } else { text }
}

/// The target; one that isn't stated is DEBUG.
pub fn target_in(text: &[u8]) -> &[u8]
    ensures { result.now ≡ target_in text.now }
{
    or_default(text, b"DEBUG".as_slice())
}

/// The tool chain's tag; one that isn't stated is GCC.
pub fn tag_in(text: &[u8]) -> &[u8]
    ensures { result.now ≡ tag_in text.now }
{
    or_default(text, b"GCC".as_slice())
}

/// The macro of the target.
pub fn target_of(alloc: Global, text: &[u8]) -> Result<Macro, WantOfMemory>
    ensures { IfOk result (λ m. m ≡ target_of text.now) }
{
    new_macro(alloc, b"TARGET".as_slice(), target_in(text))
}

/// The macro of the tool chain's tag.
pub fn tag_of(alloc: Global, text: &[u8]) -> Result<Macro, WantOfMemory>
    ensures { IfOk result (λ m. m ≡ tag_of text.now) }
{
    new_macro(alloc, b"TOOL_CHAIN_TAG".as_slice(), tag_in(text))
}

// Appends the macros of the target and of the tool chain's tag.
fn push_job(
    alloc: Global,
    macros: &mut Rows<Macro>,
    target_text: &[u8],
    tag_text: &[u8],
) -> Result<(), WantOfMemory>
    ensures { OnOk result
        (macros.new ≡ macros.old ++ target_of target_text.now ∷ tag_of tag_text.now ∷ []) }
{
    macros.push(target_of(alloc, target_text)?)?;
    macros.push(tag_of(alloc, tag_text)?)
}

/// The macros of a job's target, its tool chain's tag, and the texts of -D, which line feeds join.
#[tactic(auto, unfolding(crate::specs::Readings::macros_of_job))]
pub fn macros_of_job(
    alloc: Global,
    target_text: &[u8],
    tag_text: &[u8],
    texts: &[u8],
) -> Result<Rows<Macro>, WantOfMemory>
    ensures { IfOk result (λ ms. ms ≡ macros_of_job target_text.now tag_text.now texts.now) }
{
    let mut macros = macros_in(alloc, texts)?;
    push_job(alloc, &mut macros, target_text, tag_text)?;
    Ok(macros)
}
