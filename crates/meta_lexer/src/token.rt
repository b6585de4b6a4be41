//! Tokens of a text: words, numerals, quoted texts and marks.
ghost use Rattle.std.specs.Prelude.{◌≡◌, ℕ, List, ◌+◌, ◌<◌, ◌≤◌, ◌^◌, ◌==◌, ◌++◌, length, drop, IfOk, OnOk};
ghost use Rattle.std.specs.List.{list_all, position_or_len, All};
ghost use Rattle.meta_lexer.specs.Faults.{ReadsAs};
ghost use Rattle.meta_lexer.specs.Numbers.{is_digit};
ghost use Rattle.meta_lexer.specs.Tokens.{is_word_byte, are_digits, is_numeral, is_pair, word_size, quoted_size, mark_size, word_kind, front_of, front_view, tokens_after, tokens_of, quoted_of, token_span};
ghost use Rattle.meta_lexer.specs.Fields.{IsWithin};

use crate::field::{Span, ends_quoted, last_quote};
use crate::head::{has_no_quote, strip_delimiters};
use crate::line::is_blank;
use crate::numbers::digit;
use crate::refusal::LexRefusal;
use build_base::WantOfMemory;
use build_base::fault_codes::OPEN_QUOTE;
use std::alloc::Global;

/// What a token is. A numeral may be past 64 bits; a mark is one byte, or two as `==` and `<<`.
#[derive(Clone, Copy, Debug, PartialEq, Eq)]
pub enum TokenKind {
    Word,
    Number,
    Quoted,
    Mark,
}

/// A token of a text, from `start` up to and without `end`; a quoted one has its quotes.
#[derive(Clone, Copy, Debug, PartialEq, Eq)]
pub struct Token {
    pub kind: TokenKind,
    pub start: u64,
    pub end: u64,
}

// The token at the front of a text, and how long it is.
#[derive(Clone, Copy)]
struct Front {
    kind: TokenKind,
    size: usize,
}

/// Whether a byte may stand in a word.
pub fn is_word_byte(b: u8) -> bool
    ensures { result ≡ is_word_byte b }
{
    b.is_ascii_alphanumeric() || b == b'_'
}

/// How long the word is at the front of a text.
pub fn word_size(text: &[u8]) -> usize
    ensures size { result ≡ word_size text.now }
    ensures within { result ≤ length text.now }
{
    let mut i = 0;
    while i < text.len() && is_word_byte(text[i]) {
        i += 1;
    }
    i
}

fn has_digits_alone(base: u8, text: &[u8]) -> bool
    ensures { result ≡ list_all (is_digit base) text.now }
{
    text.iter().all(|b| digit(*b) < base)
}

fn are_digits(base: u8, text: &[u8]) -> bool
    ensures { result ≡ are_digits base text.now }
{
    !text.is_empty() && has_digits_alone(base, text)
}

#[tactic(auto, unfolding(crate::specs::Tokens::is_numeral))]
fn is_numeral(text: &[u8]) -> bool
    ensures { result ≡ is_numeral text.now }
{
    if text.len() >= 2 && text[0] == b'0' && text[1] == b'x' {
        are_digits(16, &text[2..])
    } else {
        are_digits(10, text)
    }
}

#[tactic(auto, unfolding(crate::specs::Tokens::is_pair))]
fn is_pair(a: u8, b: u8) -> bool
    ensures { result ≡ is_pair a b }
{
    if b == b'=' {
        a == b'!' || a == b'<' || a == b'=' || a == b'>'
    } else {
        a == b && (a == b'&' || a == b'<' || a == b'>' || a == b'|')
    }
}

// Where the next quote stands, or the length.
fn quote_at(text: &[u8]) -> usize
    ensures at { result ≡ position_or_len (λ b. b == 34) text.now }
    ensures within { result ≤ length text.now }
{
    for (i, b) in text.iter().enumerate() {
        if *b == b'"' {
            return i;
        }
    }
    text.len()
}

fn quoted_size(text: &[u8]) -> usize
    requires { 0 < length text.now }
    ensures { result ≡ quoted_size text.now }
{
    let size = quote_at(&text[1..]) + 2;
    size.min(text.len())
}

fn mark_size(text: &[u8]) -> usize
    requires { 0 < length text.now }
    ensures { result ≡ mark_size text.now }
{
    if text.len() >= 2 && is_pair(text[0], text[1]) {
        2
    } else {
        1
    }
}

fn word_kind(word: &[u8]) -> TokenKind
    ensures { result ≡ word_kind word.now }
{
    if is_numeral(word) {
        TokenKind::Number
    } else {
        TokenKind::Word
    }
}

#[tactic(auto, unfolding(crate::specs::Tokens::front_of))]
fn read_front(text: &[u8]) -> Front
    requires { 0 < length text.now }
    ensures front { front_view result ≡ front_of text.now }
    ensures some { 0 < result.size }
    ensures within { result.size ≤ length text.now }
{
    if text[0] == b'"' {
        return Front {
            kind: TokenKind::Quoted,
            size: quoted_size(text),
        };
    }
    if is_word_byte(text[0]) {
        let size = word_size(text);
        return Front {
            kind: word_kind(&text[..size]),
            size,
        };
    }
    Front {
        kind: TokenKind::Mark,
        size: mark_size(text),
    }
}

// Adds the token at the front, if it is no blank, and answers how far it goes.
fn push_front(found: &mut Vec<Token>, at: usize, rest: &[u8]) -> Result<usize, WantOfMemory>
    requires some { 0 < length rest.now }
    requires few { at + length rest.now < 2 ^ 63 }
    ensures some { IfOk result (λ k. 0 < k) }
    ensures within { IfOk result (λ k. k ≤ length rest.now) }
    ensures spans { (text : List ℕ) → at + length rest.now ≤ length text
        → All (λ token. IsWithin text (token_span token)) found.old.items
        → OnOk result (All (λ token. IsWithin text (token_span token)) found.new.items) }
    ensures tokens { IfOk result
        (λ k. found.new.items ++ tokens_after (at + k) 0 (drop k rest.now)
        ≡ found.old.items ++ tokens_after at 0 rest.now) }
{
    if is_blank(rest[0]) {
        return Ok(1);
    }
    let front = read_front(rest);
    let token = Token {
        kind: front.kind,
        start: at as u64,
        end: (at + front.size) as u64,
    };
    match found.push(token) {
        Ok(()) => Ok(front.size),
        Err(_) => Err(WantOfMemory),
    }
}

/// The tokens of a text, in order.
#[tactic(auto, unfolding(crate::specs::Tokens::tokens_of))]
pub fn tokens(alloc: Global, text: &[u8]) -> Result<Vec<Token>, LexRefusal>
    ensures tokens { ReadsAs (λ v. v.items) result (tokens_of text.now) }
    ensures within { IfOk result
        (λ v. All (λ token. IsWithin text.now (token_span token)) v.items) }
{
    if ends_quoted(text) {
        return Err(LexRefusal::Bad {
            code: OPEN_QUOTE,
            line: 1,
            start: last_quote(text) as u64,
            end: text.len() as u64,
        });
    }
    let mut found = Vec::new(alloc);
    let mut i = 0;
    while i < text.len() {
        i += push_front(&mut found, i, &text[i..])?;
    }
    Ok(found)
}

/// What stands within the quotes of a text that is one quoted text.
#[tactic(auto, unfolding(crate::specs::Tokens::quoted_of))]
pub fn quoted_span(text: &[u8]) -> Option<Span>
    ensures { result ≡ quoted_of text.now }
{
    if let Some(inner) = strip_delimiters(b'"', b'"', text) {
        if has_no_quote(inner) {
            return Some(Span {
                start: 1,
                end: text.len() as u64 - 1,
            });
        }
    }
    None
}
