//! Terms as tokens.
ghost use Rattle.std.specs.Prelude.{◌≡◌, ◌∷◌, ◌++◌, [], IfOk, OnOk, map};
ghost use Rattle.std.specs.List.{filter};
ghost use Rattle.depex_code.specs.Compiled.{begins_with_sor, is_no_mark, is_edge_pair, is_edge_part};
ghost use Rattle.depex_code.specs.Words.{guid_named, token_of};

use crate::token::{Edge, Joiner, Prefix, Token};
use build_base::{Guid, Text, WantOfMemory};
use doc_types::depex::NamedGuid;
use std::alloc::Global;

// The GUID of the first line that declares the name.
#[tactic(auto, unfolding(crate::specs::Words::guid_named))]
fn guid_named(guids: &[NamedGuid], name: &[u8]) -> Option<Guid>
    ensures { result ≡ guid_named guids.now name.now }
{
    for declared in guids {
        if declared.name.bytes() == name {
            return Some(declared.guid);
        }
    }
    None
}

/// A term's token. Keywords count without regard to ASCII case; any other term is a name.
#[tactic(auto, unfolding(crate::specs::Words::token_of))]
pub fn token(guids: &[NamedGuid], term: &[u8]) -> Token
    ensures { result ≡ token_of guids.now term.now }
{
    if term.eq_ignore_ascii_case(b"AND") {
        Token::Joiner(Joiner::And)
    } else if term.eq_ignore_ascii_case(b"OR") {
        Token::Joiner(Joiner::Or)
    } else if term.eq_ignore_ascii_case(b"NOT") {
        Token::Prefix(Prefix::Not)
    } else if term.eq_ignore_ascii_case(b"SOR") {
        Token::Prefix(Prefix::Sor)
    } else if term.eq_ignore_ascii_case(b"BEFORE") {
        Token::Edge(Edge::Before)
    } else if term.eq_ignore_ascii_case(b"AFTER") {
        Token::Edge(Edge::After)
    } else if term.eq_ignore_ascii_case(b"TRUE") {
        Token::Constant(true)
    } else if term.eq_ignore_ascii_case(b"FALSE") {
        Token::Constant(false)
    } else if term == b"(".as_slice() {
        Token::Open
    } else if term == b")".as_slice() {
        Token::Close
    } else {
        Token::Name(guid_named(guids, term))
    }
}

/// Whether SOR is the first term.
pub(crate) fn begins_with_sor(terms: &[Text]) -> bool
    ensures { result ≡ begins_with_sor terms.now }
{
    match terms.first() {
        Some(term) => term.bytes().eq_ignore_ascii_case(b"SOR"),
        None => false,
    }
}

fn is_no_mark(token: Token) -> bool
    ensures { result ≡ is_no_mark token }
{
    match token {
        Token::Open => false,
        Token::Close => false,
        _ => true,
    }
}

fn put(tokens: &mut Vec<Token>, token: Token) -> Result<(), WantOfMemory>
    ensures { OnOk result (tokens.new.items ≡ tokens.old.items ++ filter is_no_mark (token ∷ [])) }
{
    if is_no_mark(token) {
        match tokens.push(token) {
            Ok(()) => {}
            Err(_) => return Err(WantOfMemory),
        }
    }
    Ok(())
}

// The tokens of the terms but for the parentheses, in order.
fn bare_tokens(
    alloc: Global,
    guids: &[NamedGuid],
    terms: &[Text],
) -> Result<Vec<Token>, WantOfMemory>
    ensures { IfOk result (λ v. v.items ≡ filter is_no_mark (map (token_of guids.now) terms.now)) }
{
    let mut tokens = Vec::new(alloc);
    for term in terms {
        put(&mut tokens, token(guids, term.bytes()))?;
    }
    Ok(tokens)
}

fn is_edge_pair(tokens: &[Token]) -> bool
    ensures { result ≡ is_edge_pair tokens.now }
{
    match tokens {
        [Token::Edge(_), Token::Name(_)] => true,
        _ => false,
    }
}

/// Whether a BEFORE or AFTER and its name are all the terms, parentheses apart.
#[tactic(auto, unfolding(crate::specs::Compiled::is_edge_part))]
pub(crate) fn is_edge_part(
    alloc: Global,
    guids: &[NamedGuid],
    terms: &[Text],
) -> Result<bool, WantOfMemory>
    ensures { IfOk result (λ is. is ≡ is_edge_part guids.now terms.now) }
{
    let tokens = bare_tokens(alloc, guids, terms)?;
    Ok(is_edge_pair(tokens.as_slice()))
}
