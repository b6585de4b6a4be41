//! Words, identifiers, pairs around a mark, and uses of macros.
ghost use Rattle.std.specs.Prelude.{◌≡◌, ◌≤◌, ◌<◌, ◌==◌, length};
ghost use Rattle.std.specs.Option.{option_map};
ghost use Rattle.std.specs.List.{list_all, position_or_len};
ghost use Rattle.meta_lexer.specs.Tokens.{is_word_byte};
ghost use Rattle.meta_lexer.specs.Words.{same_word, begins_with_digit, is_identifier, split_once, has_macro_use};

use crate::line::trim;
use crate::token::is_word_byte;

/// Whether two words are the same without regard to ASCII case.
#[tactic(auto, unfolding(crate::specs::Words::same_word))]
pub fn same_word(ours: &[u8], other: &[u8]) -> bool
    ensures { result ≡ same_word ours.now other.now }
{
    ours.eq_ignore_ascii_case(other)
}

fn has_word_bytes_alone(text: &[u8]) -> bool
    ensures { result ≡ list_all is_word_byte text.now }
{
    text.iter().all(|b| is_word_byte(*b))
}

fn begins_with_digit(text: &[u8]) -> bool
    requires { 0 < length text.now }
    ensures { result ≡ begins_with_digit text.now }
{
    text[0] >= b'0' && text[0] <= b'9'
}

/// Whether a text is a C identifier of at most 64 bytes, as the names of macros, PCDs and GUIDs
/// are.
#[tactic(auto, unfolding(crate::specs::Words::is_identifier))]
pub fn is_identifier(text: &[u8]) -> bool
    ensures { result ≡ is_identifier text.now }
{
    !text.is_empty() && text.len() <= 64 && has_word_bytes_alone(text) && !begins_with_digit(text)
}

/// Where the byte stands first, or the length.
pub fn place_of(mark: u8, text: &[u8]) -> usize
    ensures at { result ≡ position_or_len (λ b. b == mark) text.now }
    ensures within { result ≤ length text.now }
{
    for (i, b) in text.iter().enumerate() {
        if *b == mark {
            return i;
        }
    }
    text.len()
}

/// The texts before and after the first mark, without their outer blanks.
#[tactic(auto, unfolding(crate::specs::Words::split_once))]
pub fn split_once(mark: u8, text: &[u8]) -> Option<(&[u8], &[u8])>
    ensures { option_map (λ p. (p.0.now, p.1.now)) result ≡ split_once mark text.now }
{
    let i = place_of(mark, text);
    if i < text.len() {
        Some((trim(&text[..i]), trim(&text[i + 1..])))
    } else {
        None
    }
}

/// Whether `$(` stands in a text.
#[tactic(auto, unfolding(crate::specs::Words::has_macro_use))]
pub fn has_macro_use(text: &[u8]) -> bool
    ensures { result ≡ has_macro_use text.now }
{
    for (i, b) in text.iter().enumerate() {
        if *b == b'$' && i + 1 < text.len() && text[i + 1] == b'(' {
            return true;
        }
    }
    false
}
