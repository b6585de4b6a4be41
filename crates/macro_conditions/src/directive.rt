//! Directives and definitions, by the first word of a line.
ghost use Rattle.std.specs.Prelude.{◌≡◌, drop};
ghost use Rattle.std.specs.Option.{option_map};
ghost use Rattle.macro_conditions.specs.Directives.{first_word, after_word, is_directive, directive_word, directive_rest, kind_by, kind_of, is_include, is_definition, definition_of, macro_named};

use macro_expressions::macros::use_at;
use meta_lexer::line::trim;
use meta_lexer::lookup;
use meta_lexer::token::word_size;
use meta_lexer::words::{is_identifier, same_word, split_once};

/// What a line does to the conditionals. A line that acts is any but their directives.
#[derive(Clone, Copy, PartialEq, Eq)]
pub(crate) enum Directive {
    Act,
    If,
    Elseif,
    Else,
    Endif,
}

fn first_word(text: &[u8]) -> &[u8]
    ensures { result.now ≡ first_word text.now }
{
    &text[..word_size(text)]
}

fn after_word(text: &[u8]) -> &[u8]
    ensures { result.now ≡ after_word text.now }
{
    trim(&text[word_size(text)..])
}

/// Whether a line is a directive.
pub(crate) fn is_directive(text: &[u8]) -> bool
    ensures { result ≡ is_directive text.now }
{
    !text.is_empty() && text[0] == b'!'
}

// The text without its first byte.
fn behind_mark(text: &[u8]) -> &[u8]
    ensures { result.now ≡ drop 1 text.now }
{
    if text.is_empty() { text } else { &text[1..] }
}

/// The word after the `!` of a directive.
#[tactic(auto, unfolding(crate::specs::Directives::directive_word))]
pub(crate) fn directive_word(text: &[u8]) -> &[u8]
    ensures { result.now ≡ directive_word text.now }
{
    first_word(behind_mark(text))
}

/// What follows the word of a directive.
#[tactic(auto, unfolding(crate::specs::Directives::directive_rest))]
pub(crate) fn directive_rest(text: &[u8]) -> &[u8]
    ensures { result.now ≡ directive_rest text.now }
{
    after_word(behind_mark(text))
}

const DIRECTIVES: [(&[u8], Directive); 6] = [
    (b"if", Directive::If),
    (b"ifdef", Directive::If),
    (b"ifndef", Directive::If),
    (b"elseif", Directive::Elseif),
    (b"else", Directive::Else),
    (b"endif", Directive::Endif),
];

#[tactic(auto, unfolding(crate::specs::Directives::kind_by))]
fn kind_by(word: &[u8]) -> Directive
    ensures { result ≡ kind_by word.now }
{
    match lookup(&DIRECTIVES, word) {
        Some(kind) => kind,
        None => Directive::Act,
    }
}

/// What a line does to the conditionals.
#[tactic(auto, unfolding(crate::specs::Directives::kind_of))]
pub fn kind_of(text: &[u8]) -> Directive
    ensures { result ≡ kind_of text.now }
{
    if is_directive(text) {
        kind_by(directive_word(text))
    } else {
        Directive::Act
    }
}

/// Whether a line is an `!include`.
#[tactic(auto, unfolding(crate::specs::Directives::is_include))]
pub(crate) fn is_include(text: &[u8]) -> bool
    ensures { result ≡ is_include text.now }
{
    is_directive(text) && same_word(directive_word(text), b"include".as_slice())
}

/// Whether a line is a `DEFINE` or an `EDK_GLOBAL`.
#[tactic(auto, unfolding(crate::specs::Directives::is_definition))]
pub(crate) fn is_definition(text: &[u8]) -> bool
    ensures { result ≡ is_definition text.now }
{
    same_word(first_word(text), b"DEFINE".as_slice())
        || same_word(first_word(text), b"EDK_GLOBAL".as_slice())
}

/// The name and the value of a definition, where it has its form.
#[tactic(auto, unfolding(crate::specs::Directives::definition_of))]
pub(crate) fn definition_of(text: &[u8]) -> Option<(&[u8], &[u8])>
    ensures { option_map (λ p. (p.0.now, p.1.now)) result ≡ definition_of text.now }
{
    match split_once(b'=', after_word(text)) {
        Some((name, value)) if is_identifier(name) => Some((name, value)),
        _ => None,
    }
}

/// The macro that is named as `NAME` or `$(NAME)`.
#[tactic(auto, unfolding(crate::specs::Directives::macro_named))]
pub(crate) fn macro_named(text: &[u8]) -> Option<&[u8]>
    ensures { option_map (λ t. t.now) result ≡ macro_named text.now }
{
    if is_identifier(text) {
        return Some(text);
    }
    match use_at(text) {
        Some(n) if n + 3 == text.len() => Some(&text[2..n + 2]),
        _ => None,
    }
}
