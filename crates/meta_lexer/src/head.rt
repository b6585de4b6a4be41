//! Heads of sections, as `[name.qualifier.qualifier, name.qualifier]`.
ghost use Rattle.std.specs.Prelude.{◌≡◌, ◌==◌, IfOk, length, nat_lt, not, Some, None, if◌then◌else◌};
ghost use Rattle.std.specs.Option.{option_map};
ghost use Rattle.std.specs.List.{list_all};
ghost use Rattle.meta_lexer.specs.Faults.{ReadsAs};
ghost use Rattle.meta_lexer.specs.Fields.{bytes_at, IsWithin};
ghost use Rattle.meta_lexer.specs.Heads.{inner, stands_between, is_quoted, without_quotes, head_of, heads_of, is_head, begins_section, section_of};

use crate::field::{Span, ends_quoted, split_unquoted};
use crate::line::trim;
use crate::refusal::LexRefusal;
use build_base::fault_codes::BAD_SECTION;
use build_base::{Rows, Text, WantOfMemory};
use std::alloc::Global;

/// A section's name and its qualifiers, without quotes.
#[derive(Debug, Drop)]
pub struct Head {
    pub parts: Rows<Text>,
}

/// What stands between the two bytes, where a text begins and ends with them.
pub fn strip_delimiters(first: u8, last: u8, text: &[u8]) -> Option<&[u8]>
    ensures { option_map (λ t. t.now) result
        ≡ (if stands_between first last text.now then Some (inner text.now) else None) }
{
    if text.len() >= 2 && text[0] == first && text[text.len() - 1] == last {
        Some(&text[1..text.len() - 1])
    } else {
        None
    }
}

/// Whether no quote stands in a text.
pub(crate) fn has_no_quote(text: &[u8]) -> bool
    ensures { result ≡ list_all (λ b. not (b == 34)) text.now }
{
    text.iter().all(|b| *b != b'"')
}

// What stands within the quotes of a text that is one quoted text.
fn within_quotes(text: &[u8]) -> Option<&[u8]>
    ensures { option_map (λ t. t.now) result
        ≡ (if is_quoted text.now then Some (inner text.now) else None) }
{
    match strip_delimiters(b'"', b'"', text) {
        Some(inner) => {
            if has_no_quote(inner) {
                Some(inner)
            } else {
                None
            }
        }
        None => None,
    }
}

/// One quoted text without its quotes; any other part as it is.
#[tactic(auto, unfolding(crate::specs::Heads::without_quotes))]
pub fn without_quotes(part: &[u8]) -> &[u8]
    ensures { result.now ≡ without_quotes part.now }
{
    match within_quotes(part) {
        Some(text) => text,
        None => part,
    }
}

/// The bytes of a span of a text.
pub fn bytes_at<'a>(text: &'a [u8], span: &Span) -> &'a [u8]
    requires { IsWithin text.now span.now }
    ensures { result.now ≡ bytes_at text.now span.now }
{
    &text[span.start as usize..span.end as usize]
}

#[tactic(auto, unfolding(crate::specs::Heads::head_of))]
fn make_head(alloc: Global, text: &[u8]) -> Result<Head, WantOfMemory>
    ensures { IfOk result (λ h. h ≡ head_of text.now) }
{
    let spans = split_unquoted(alloc, false, b'.', text)?;
    let mut parts = Rows::new(alloc);
    for span in &spans {
        let part = without_quotes(trim(bytes_at(text, span)));
        parts.push(Text::of(alloc, part)?)?;
    }
    Ok(Head { parts })
}

#[tactic(auto, unfolding(crate::specs::Heads::heads_of))]
fn heads(alloc: Global, text: &[u8]) -> Result<Rows<Head>, WantOfMemory>
    ensures { IfOk result (λ hs. hs ≡ heads_of text.now) }
{
    let spans = split_unquoted(alloc, false, b',', text)?;
    let mut heads = Rows::new(alloc);
    for span in &spans {
        heads.push(make_head(alloc, bytes_at(text, span))?)?;
    }
    Ok(heads)
}

fn are_named(parts: &[Text]) -> bool
    ensures { result ≡ list_all (λ part. nat_lt 0 (length part)) parts.now }
{
    parts.iter().all(|part| !part.bytes().is_empty())
}

#[tactic(auto, unfolding(crate::specs::Heads::is_head))]
fn is_head(head: &Head) -> bool
    ensures { result ≡ is_head head.now }
{
    head.parts.items().len() <= 4 && are_named(head.parts.items())
}

fn all_heads(heads: &[Head]) -> bool
    ensures { result ≡ list_all is_head heads.now }
{
    heads.iter().all(|head| is_head(head))
}

/// Whether a line is a section's head, also a wrong one.
pub fn begins_section(text: &[u8]) -> bool
    ensures { result ≡ begins_section text.now }
{
    !text.is_empty() && text[0] == b'['
}

/// The heads of a section, or nothing where the text is no section's head.
#[tactic(auto, unfolding(crate::specs::Heads::section_of))]
pub fn section_head(alloc: Global, text: &[u8]) -> Result<Option<Rows<Head>>, LexRefusal>
    ensures { ReadsAs (λ o. o) result (section_of text.now) }
{
    if !begins_section(text) {
        return Ok(None);
    }
    if let Some(inner) = strip_delimiters(b'[', b']', text) {
        if !ends_quoted(inner) {
            let heads = heads(alloc, inner)?;
            if all_heads(heads.items()) {
                return Ok(Some(heads));
            }
        }
    }
    Err(LexRefusal::Bad {
        code: BAD_SECTION,
        line: 1,
        start: 0,
        end: text.len() as u64,
    })
}
