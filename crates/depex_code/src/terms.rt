//! Reads terms one by one.
ghost use Rattle.std.specs.Prelude.{◌≡◌, ◌∷◌, IfOk, OnOk, option_map};
ghost use Rattle.depex_code.specs.Terms.{settle, step, holding};
ghost use Rattle.depex_code.specs.Sizes.{sizes};
ghost use Rattle.depex_code.specs.Kept.{piece_size, wait_view, waits_of, is_base, Popped, Took, Closed, Steps, state_of};

use crate::make::{constant, edge_piece, join_pieces, name, prefix_piece};
use crate::piece::Piece;
use crate::token::Token;
use crate::waiting::{Stage, Waiting};
use build_base::WantOfMemory;
use std::alloc::Global;

fn is_base(waits: &Vec<Waiting>) -> bool
    ensures { result ≡ is_base (waits_of waits.now.items) }
{
    match waits.last() {
        None => true,
        Some(Waiting::Group) => true,
        Some(Waiting::Front(_)) => false,
        Some(Waiting::Left(_, _)) => false,
    }
}

fn pop(waits: &mut Vec<Waiting>) -> Option<Waiting>
    ensures { Popped (waits_of waits.old.items) (option_map wait_view result)
        (waits_of waits.new.items) }
{
    waits.pop()
}

// Takes off what takes an operand.
fn take(waits: &mut Vec<Waiting>) -> Option<Waiting>
    ensures { Took (waits_of waits.old.items) (option_map wait_view result)
        (waits_of waits.new.items) }
{
    if is_base(waits) {
        return None;
    }
    pop(waits)
}

fn put(waits: &mut Vec<Waiting>, wait: Waiting) -> Result<(), WantOfMemory>
    ensures { OnOk result (waits_of waits.new.items ≡ wait_view wait ∷ waits_of waits.old.items) }
{
    match waits.push(wait) {
        Ok(()) => Ok(()),
        Err(_) => Err(WantOfMemory),
    }
}

// An operand is whole: the prefixes and the joiner before it take it.
fn settle_operand(
    alloc: Global,
    waits: &mut Vec<Waiting>,
    factor: Piece,
) -> Result<Piece, WantOfMemory>
    ensures { IfOk result (λ v. settle sizes (waits_of waits.old.items) (piece_size factor)
        ≡ holding (waits_of waits.new.items) (piece_size v)) }
{
    let mut value = factor;
    while let Some(wait) = take(waits) {
        match wait {
            Waiting::Front(prefix) => value = prefix_piece(alloc, prefix, value)?,
            Waiting::Left(a, join) => return join_pieces(alloc, join, a, value),
            Waiting::Group => return Ok(value),
        }
    }
    Ok(value)
}

// Takes off an open parenthesis.
fn close(waits: &mut Vec<Waiting>) -> bool
    ensures { Closed (waits_of waits.old.items) result (waits_of waits.new.items) }
{
    match waits.last() {
        Some(Waiting::Group) => {
            let _ = waits.pop();
            true
        }
        _ => false,
    }
}

/// What may come after one more term; None where the term is wrong.
pub fn step(
    alloc: Global,
    waits: &mut Vec<Waiting>,
    stage: Stage,
    token: Token,
) -> Result<Option<Stage>, WantOfMemory>
    ensures { IfOk result
        (Steps (step sizes (state_of waits.old.items stage) token) waits.new.items) }
{
    match (stage, token) {
        (Stage::Wanting, Token::Name(guid)) => {
            Ok(Some(Stage::Holding(settle_operand(alloc, waits, name(alloc, guid)?)?)))
        }
        (Stage::Wanting, Token::Constant(value)) => {
            Ok(Some(Stage::Holding(settle_operand(alloc, waits, constant(alloc, value)?)?)))
        }
        (Stage::Wanting, Token::Edge(edge)) => Ok(Some(Stage::Pointing(edge))),
        (Stage::Wanting, Token::Prefix(prefix)) => {
            put(waits, Waiting::Front(prefix))?;
            Ok(Some(Stage::Wanting))
        }
        (Stage::Wanting, Token::Open) => {
            put(waits, Waiting::Group)?;
            Ok(Some(Stage::Wanting))
        }
        (Stage::Pointing(edge), Token::Name(guid)) => {
            Ok(Some(Stage::Holding(settle_operand(alloc, waits, edge_piece(alloc, edge, guid)?)?)))
        }
        (Stage::Holding(value), Token::Joiner(join)) => {
            put(waits, Waiting::Left(value, join))?;
            Ok(Some(Stage::Wanting))
        }
        (Stage::Holding(value), Token::Close) => {
            let closes = close(waits);
            if !closes {
                return Ok(None);
            }
            Ok(Some(Stage::Holding(settle_operand(alloc, waits, value)?)))
        }
        _ => Ok(None),
    }
}
