//! The fields of a line and the words of a field, as texts of their own.
ghost use Rattle.std.specs.Prelude.{◌≡◌, ◌++◌, IfOk, OnOk, map};
ghost use Rattle.std.specs.List.{slice_split};
ghost use Rattle.meta_lexer.specs.Lines.{is_blank};
ghost use Rattle.meta_lexer.specs.Parts.{first_text, field_texts, word_at, words_among, words_of};

use crate::field::split_unquoted;
use crate::head::bytes_at;
use crate::line::{is_blank, trim};
use build_base::{Rows, Text, WantOfMemory};
use std::alloc::{AllocError, Global};

/// The first of some texts, empty where there is none.
pub fn first_text(texts: &[Text]) -> &[u8]
    ensures { result.now ≡ first_text texts.now }
{
    match texts {
        [text, ..] => text.bytes(),
        [] => b"".as_slice(),
    }
}

/// The fields between `|`, without their outer blanks.
#[tactic(auto, unfolding(crate::specs::Parts::field_texts))]
pub fn field_texts(alloc: Global, text: &[u8]) -> Result<Rows<Text>, WantOfMemory>
    ensures { IfOk result (λ fields. fields ≡ field_texts text.now) }
{
    let spans = split_unquoted(alloc, true, b'|', text)?;
    let mut fields = Rows::new(alloc);
    for span in &spans {
        let field = trim(bytes_at(text, span));
        fields.push(Text::of(alloc, field)?)?;
    }
    Ok(fields)
}

fn cut_at_blanks(alloc: Global, text: &[u8]) -> Result<Vec<&[u8]>, AllocError>
    ensures { IfOk result (λ pieces. map (λ piece. piece.now) pieces.items
        ≡ slice_split is_blank text.now) }
{
    text.split(|b| is_blank(*b)).collect(alloc)
}

fn push_word(alloc: Global, words: &mut Rows<Text>, piece: &[u8]) -> Result<(), WantOfMemory>
    ensures { OnOk result (words.new ≡ words.old ++ word_at piece.now) }
{
    if !piece.is_empty() {
        words.push(Text::of(alloc, piece)?)?;
    }
    Ok(())
}

fn words_among(alloc: Global, pieces: &[&[u8]]) -> Result<Rows<Text>, WantOfMemory>
    ensures { IfOk result (λ words. words ≡ words_among (map (λ piece. piece.now) pieces.now)) }
{
    let mut words = Rows::new(alloc);
    for piece in pieces {
        push_word(alloc, &mut words, piece)?;
    }
    Ok(words)
}

/// The words between blanks.
#[tactic(auto, unfolding(crate::specs::Parts::words_of))]
pub fn words(alloc: Global, text: &[u8]) -> Result<Rows<Text>, WantOfMemory>
    ensures { IfOk result (λ words. words ≡ words_of text.now) }
{
    let pieces = cut_at_blanks(alloc, text)?;
    words_among(alloc, pieces.as_slice())
}
