//! What each value of a build's words has to be.
ghost use Rattle.std.specs.Prelude.{◌≡◌, ◌==◌, ◌≤◌, ◌<◌, length, IfSome};
ghost use Rattle.std.specs.List.{list_all, position, position_or_len};
ghost use Rattle.std.specs.Option.{is_some};
ghost use Rattle.doc_types.specs.Pcds.{pcd_name_of};
ghost use Rattle.meta_lexer.specs.Lines.{is_plain};
ghost use Rattle.job_fields.specs.Values.{is_name_byte, is_name, is_define, is_setting, is_arch};

use doc_types::arch::{Arch, arch_named};
use meta_lexer::line::is_plain;
use meta_lexer::words::is_identifier;

#[tactic(auto, unfolding(crate::specs::Values::is_name_byte))]
fn is_name_byte(byte: u8) -> bool
    ensures { result ≡ is_name_byte byte }
{
    matches!(byte, b'a'..=b'z' | b'A'..=b'Z' | b'0'..=b'9' | b'_' | b'-')
}

fn has_name_bytes_alone(text: &[u8]) -> bool
    ensures { result ≡ list_all is_name_byte text.now }
{
    text.iter().all(|byte| is_name_byte(*byte))
}

/// Whether a text names a target, a tag, a SKU or an image.
#[tactic(auto, unfolding(crate::specs::Values::is_name))]
pub fn is_name(text: &[u8]) -> bool
    ensures { result ≡ is_name text.now }
{
    1 <= text.len() && text.len() <= 64 && has_name_bytes_alone(text)
}

/// Whether all bytes of a text may stand in a file outside comments.
pub fn has_plain_bytes_alone(text: &[u8]) -> bool
    ensures { result ≡ list_all is_plain text.now }
{
    text.iter().all(|byte| is_plain(*byte))
}

// Where the byte stands first, or the length.
fn first_at(byte: u8, text: &[u8]) -> usize
    ensures at { result ≡ position_or_len (λ b. b == byte) text.now }
    ensures within { result ≤ length text.now }
{
    for (i, b) in text.iter().enumerate() {
        if *b == byte {
            return i;
        }
    }
    text.len()
}

/// Whether a text defines a macro: `NAME=VALUE`, or `NAME`, whose value is TRUE.
#[tactic(auto, unfolding(crate::specs::Values::is_define))]
pub fn is_define(text: &[u8]) -> bool
    ensures { result ≡ is_define text.now }
{
    let equals = first_at(b'=', text);
    is_identifier(&text[..equals]) && has_plain_bytes_alone(&text[equals..])
}

fn dot_at(text: &[u8]) -> Option<usize>
    ensures at { result ≡ position (λ byte. byte == 46) text.now }
    ensures within { IfSome result (λ at. at < length text.now) }
{
    text.iter().position(|byte| *byte == b'.')
}

#[tactic(auto, unfolding(doc_types::specs::Pcds::pcd_name_of))]
fn is_pcd_name(text: &[u8]) -> bool
    ensures { result ≡ is_some (pcd_name_of text.now) }
{
    match dot_at(text) {
        Some(dot) => is_identifier(&text[..dot]) && is_identifier(&text[dot + 1..]),
        None => false,
    }
}

/// Whether a text gives a PCD a value: `Space.Name=Value`.
#[tactic(auto, unfolding(crate::specs::Values::is_setting))]
pub fn is_setting(text: &[u8]) -> bool
    ensures { result ≡ is_setting text.now }
{
    let equals = first_at(b'=', text);
    equals < text.len() && is_pcd_name(&text[..equals]) && has_plain_bytes_alone(&text[equals..])
}

/// Whether a text names an architecture that can be built, in any case of its letters.
pub fn is_arch(text: &[u8]) -> bool
    ensures { result ≡ is_arch text.now }
{
    match arch_named(text) {
        None | Some(Arch::Common) => false,
        Some(_) => true,
    }
}
