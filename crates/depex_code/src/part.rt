//! The expression of one section.
ghost use Rattle.std.specs.Prelude.{◌≡◌, ◌&&◌, Some, IfOk, option_map, codes};
ghost use Rattle.build_base.specs.Answer.{AnswersAs};
ghost use Rattle.depex_code.specs.Words.{token_of};
ghost use Rattle.depex_code.specs.Terms.{step, ended};
ghost use Rattle.depex_code.specs.Sizes.{sizes, size_of};
ghost use Rattle.depex_code.specs.Kept.{piece_size, state_of, TermRead};
ghost use Rattle.build_base.specs.FaultText.{fault_of};
ghost use Rattle.depex_code.specs.Compiled.{value_or, unknown_code, own_code, terms_tree, after_sor, is_edge_part, part_tree, map_ok};
ghost use Rattle.build_base.specs.FaultCodes.{BAD_TERM};

use crate::leave::Leave;
use crate::piece::Piece;
use crate::terms::step;
use crate::token::{Prefix, Token};
use crate::waiting::{Stage, Waiting};
use crate::words::{begins_with_sor, is_edge_part, token};
use build_base::fault_codes::{BAD_PLACE, BAD_TERM, DEPEX_GUID_UNKNOWN};
use build_base::{Place, Refusal, Text, WantOfMemory, refuse};
use doc_types::depex::{DepexPart, NamedGuid};
use meta_lexer::words::is_identifier;
use std::alloc::Global;

// What is wrong with a term that no line declares.
fn unknown_code(term: &[u8]) -> u16
    ensures { result ≡ unknown_code term.now }
{
    if is_identifier(term) {
        DEPEX_GUID_UNKNOWN
    } else {
        BAD_TERM
    }
}

// What is wrong with a term, whatever stands before it.
fn own_code(edge: bool, term: &[u8], token: Token) -> Option<u16>
    ensures { result ≡ own_code edge term.now token }
{
    match token {
        Token::Name(None) => Some(unknown_code(term)),
        Token::Edge(_) if !edge => Some(BAD_PLACE),
        Token::Prefix(Prefix::Sor) => Some(BAD_PLACE),
        _ => None,
    }
}

// One more term.
fn turn(
    alloc: Global,
    at: &Place,
    guids: &[NamedGuid],
    edge: bool,
    waits: &mut Vec<Waiting>,
    stage: Stage,
    term: &[u8],
) -> Result<Stage, Refusal>
    ensures { TermRead at.now edge (token_of guids.now term.now) term.now
        (step sizes (state_of waits.old.items stage) (token_of guids.now term.now)) waits.new.items
        result }
{
    let token = token(guids, term);
    let next = match step(alloc, waits, stage, token) {
        Ok(Some(next)) => next,
        Ok(None) => return Err(refuse(alloc, BAD_TERM, at, term)),
        Err(_) => return Err(Refusal::WantOfMemory),
    };
    match own_code(edge, term, token) {
        Some(code) => Err(refuse(alloc, code, at, term)),
        None => Ok(next),
    }
}

// The value that is held, where nothing waits.
fn finish(waits: &Vec<Waiting>, stage: Stage) -> Option<Piece>
    ensures { option_map piece_size result ≡ ended (state_of waits.now.items stage) }
{
    match (waits.last(), stage) {
        (None, Stage::Holding(piece)) => Some(piece),
        _ => None,
    }
}

fn whole(alloc: Global, at: &Place, waits: &Vec<Waiting>, stage: Stage) -> Result<Piece, Refusal>
    ensures { AnswersAs piece_size result
        (value_or (fault_of BAD_TERM at.now (codes "end"))
        (ended (state_of waits.now.items stage))) }
{
    match finish(waits, stage) {
        Some(piece) => Ok(piece),
        None => Err(refuse(alloc, BAD_TERM, at, b"end")),
    }
}

/// The expression of the terms.
pub fn read_terms(
    alloc: Global,
    at: &Place,
    guids: &[NamedGuid],
    edge: bool,
    terms: &[Text],
) -> Result<Piece, Refusal>
    ensures { AnswersAs piece_size result
        (map_ok size_of (terms_tree at.now guids.now edge terms.now)) }
{
    let mut waits = Vec::new(alloc);
    let mut stage = Stage::Wanting;
    for term in terms {
        match turn(alloc, at, guids, edge, &mut waits, stage, term.bytes()) {
            Ok(next) => stage = next,
            Err(e) => return Err(e),
        }
    }
    whole(alloc, at, &waits, stage)
}

#[tactic(auto, unfolding(crate::specs::Compiled::after_sor))]
fn after_sor(leave: Leave, terms: &[Text]) -> &[Text]
    ensures { result.now ≡ after_sor leave terms.now }
{
    if leave.sor && begins_with_sor(terms) {
        &terms[1..]
    } else {
        terms
    }
}

// Whether BEFORE or AFTER may stand in the part.
fn edge_stands(
    alloc: Global,
    leave: Leave,
    guids: &[NamedGuid],
    terms: &[Text],
) -> Result<bool, WantOfMemory>
    ensures { IfOk result (λ edge. edge ≡ (leave.edge && is_edge_part guids.now terms.now)) }
{
    if leave.edge {
        is_edge_part(alloc, guids, terms)
    } else {
        Ok(false)
    }
}

/// The expression of a section, without the SOR at its front.
#[tactic(auto, unfolding(crate::specs::Compiled::part_tree))]
pub(crate) fn part_piece(
    alloc: Global,
    leave: Leave,
    guids: &[NamedGuid],
    part: &DepexPart,
) -> Result<Piece, Refusal>
    ensures { AnswersAs piece_size result (map_ok size_of (part_tree leave guids.now part.now)) }
{
    let terms = part.terms.items();
    let edge = match edge_stands(alloc, leave, guids, terms) {
        Ok(edge) => edge,
        Err(_) => return Err(Refusal::WantOfMemory),
    };
    let rest = after_sor(leave, terms);
    read_terms(alloc, &part.at, guids, edge, rest)
}
