//! Joins the expressions of sections and of INF files.
ghost use Rattle.std.specs.Prelude.{◌≡◌, ◌++◌, ◌∷◌, [], None, IfOk, option_map};
ghost use Rattle.build_base.specs.Answer.{AnswersAs, Checks};
ghost use Rattle.depex_code.specs.Kept.{reach_view, form_view, piece_size};
ghost use Rattle.depex_code.specs.Compiled.{limit_detail};
ghost use Rattle.depex_code.specs.SizedJoins.{join_to_size, join_to_reach, around_reach, with_group_size, reach_fault, next_piece, next_size, parts_size, groups_size, front_bytes, simple_bytes, final_bytes};

use crate::conjunction::conjunction;
use crate::leave::{Leave, NO_LEAVE};
use crate::make::{join_pieces, joined_measure, prefixed_measure, put};
use crate::measure::Measure;
use crate::opcode::{DEEPEST, END, MOST, SOR};
use crate::part::part_piece;
use crate::piece::{Code, Piece};
use crate::token::Joiner;
use build_base::fault_codes::TOO_DEEP;
use build_base::{Place, Refusal, Text, WantOfMemory, refuse};
use doc_types::depex::{DepexGroup, DepexPart, NamedGuid};
use std::alloc::Global;

fn join_to(alloc: Global, whole: Option<Piece>, piece: Piece) -> Result<Piece, WantOfMemory>
    ensures { IfOk result (λ p. piece_size p
        ≡ join_to_size (option_map piece_size whole) (piece_size piece)) }
{
    match whole {
        None => Ok(piece),
        Some(a) => {
            if a.alone {
                Ok(a)
            } else {
                join_pieces(alloc, Joiner::And, a, piece)
            }
        }
    }
}

fn join_to_measure(whole: &Option<Piece>, piece: &Piece) -> Measure
    ensures { reach_view result ≡ join_to_reach (option_map piece_size whole.now)
        (piece_size piece.now) }
{
    match whole {
        None => piece.measure,
        Some(a) => {
            if a.alone {
                a.measure
            } else {
                joined_measure(a.measure, piece.measure)
            }
        }
    }
}

fn around(front: bool, measure: Measure) -> Measure
    ensures { reach_view result ≡ around_reach front (reach_view measure) }
{
    if front {
        prefixed_measure(measure)
    } else {
        measure
    }
}

// What a measure past the limits is refused with.
fn limit_detail(measure: Measure) -> Option<&'static [u8]>
    ensures { option_map (λ detail. detail.now) result ≡ limit_detail measure.deep measure.count }
{
    if measure.deep > DEEPEST {
        return Some(b"65");
    }
    if measure.count > MOST {
        return Some(b"4097");
    }
    None
}

fn within_limits(alloc: Global, at: &Place, measure: Measure) -> Result<(), Refusal>
    ensures { Checks result (reach_fault at.now (reach_view measure)) }
{
    match limit_detail(measure) {
        Some(detail) => Err(refuse(alloc, TOO_DEEP, at, detail)),
        None => Ok(()),
    }
}

fn next_piece(
    alloc: Global,
    front: bool,
    whole: &Option<Piece>,
    own: Option<Piece>,
    at: &Place,
    piece: Piece,
) -> Result<Piece, Refusal>
    ensures { AnswersAs piece_size result
        (next_piece front (option_map piece_size whole.now) (option_map piece_size own) at.now
        (piece_size piece)) }
{
    let own = match join_to(alloc, own, piece) {
        Ok(own) => own,
        Err(_) => return Err(Refusal::WantOfMemory),
    };
    let measure = around(front, join_to_measure(whole, &own));
    match within_limits(alloc, at, measure) {
        Ok(()) => Ok(own),
        Err(e) => Err(e),
    }
}

fn next_part(
    alloc: Global,
    front: bool,
    guids: &[NamedGuid],
    whole: &Option<Piece>,
    leave: Leave,
    own: Option<Piece>,
    part: &DepexPart,
) -> Result<Piece, Refusal>
    ensures { AnswersAs piece_size result
        (next_size front guids.now (option_map piece_size whole.now) leave
        (option_map piece_size own) part.now) }
{
    match part_piece(alloc, leave, guids, part) {
        Ok(piece) => next_piece(alloc, front, whole, own, &part.at, piece),
        Err(e) => Err(e),
    }
}

// The expression of one INF file.
fn joined_parts(
    alloc: Global,
    front: bool,
    whole: &Option<Piece>,
    leave: Leave,
    group: &DepexGroup,
) -> Result<Option<Piece>, Refusal>
    ensures { AnswersAs (option_map piece_size) result
        (parts_size front group.now.guids (option_map piece_size whole.now) leave None
        group.now.parts) }
{
    let guids = group.guids.items();
    let mut own = None;
    let mut left = leave;
    for part in group.parts.items() {
        match next_part(alloc, front, guids, whole, left, own, part) {
            Ok(next) => own = Some(next),
            Err(e) => return Err(e),
        }
        left = NO_LEAVE;
    }
    Ok(own)
}

fn with_group(
    alloc: Global,
    whole: Option<Piece>,
    own: Option<Piece>,
) -> Result<Option<Piece>, WantOfMemory>
    ensures { IfOk result (λ w. option_map piece_size w
        ≡ with_group_size (option_map piece_size whole) (option_map piece_size own)) }
{
    match own {
        None => Ok(whole),
        Some(piece) => Ok(Some(join_to(alloc, whole, piece)?)),
    }
}

/// The expression of all INF files, without the SOR around it. The first one has the leave.
pub(crate) fn joined_groups(
    alloc: Global,
    front: bool,
    leave: Leave,
    groups: &[DepexGroup],
) -> Result<Option<Piece>, Refusal>
    ensures { AnswersAs (option_map piece_size) result (groups_size front leave None groups.now) }
{
    let mut whole = None;
    let mut left = leave;
    for group in groups {
        let own = match joined_parts(alloc, front, &whole, left, group) {
            Ok(own) => own,
            Err(e) => return Err(e),
        };
        match with_group(alloc, whole, own) {
            Ok(next) => whole = next,
            Err(_) => return Err(Refusal::WantOfMemory),
        }
        left = NO_LEAVE;
    }
    Ok(whole)
}

fn front_bytes(alloc: Global, front: bool, bytes: Vec<u8>) -> Result<Vec<u8>, WantOfMemory>
    ensures { IfOk result (λ v. v.items ≡ front_bytes front bytes.items) }
{
    if !front {
        return Ok(bytes);
    }
    let mut all = Vec::new(alloc);
    put(&mut all, SOR)?;
    all.extend_from_slice(bytes.as_slice())?;
    Ok(all)
}

fn ended_bytes(alloc: Global, front: bool, bytes: Vec<u8>) -> Result<Vec<u8>, WantOfMemory>
    ensures { IfOk result (λ v. v.items ≡ front_bytes front bytes.items ++ 8 ∷ []) }
{
    let mut all = front_bytes(alloc, front, bytes)?;
    put(&mut all, END)?;
    Ok(all)
}

// The bytes of the tree in which a conjunction has lost its repeats and its TRUE.
fn simple_bytes(alloc: Global, code: Code) -> Result<Vec<u8>, WantOfMemory>
    ensures { IfOk result (λ v. v.items ≡ simple_bytes (form_view code)) }
{
    let Code { bytes, guids } = code;
    match guids {
        None => Ok(bytes),
        Some(guids) => conjunction(alloc, guids.as_slice()),
    }
}

/// The bytes of an expression, with the SOR in front and END.
pub(crate) fn final_bytes(
    alloc: Global,
    front: bool,
    whole: Option<Piece>,
) -> Result<Text, WantOfMemory>
    ensures { IfOk result (λ t. t ≡ final_bytes front (option_map piece_size whole)) }
{
    match whole {
        None => Text::of(alloc, b""),
        Some(piece) => {
            let bytes = simple_bytes(alloc, piece.code)?;
            Ok(Text::from_vec(ended_bytes(alloc, front, bytes)?))
        }
    }
}
