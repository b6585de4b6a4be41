//! Makes pieces.
ghost use Rattle.std.specs.Prelude.{◌≡◌, ◌+◌, ◌∷◌, ◌++◌, [], false, IfOk, OnOk, option_map};
ghost use Rattle.depex_code.specs.Tree.{both_lists};
ghost use Rattle.depex_code.specs.Sizes.{reach_of, join_reach, prefix_reach, fits, no_form, sized_piece, leaf_size, constant_size, name_size, edge_size, edge_code, join_code, prefix_bytes, prefix_form, join_guids, join_form, join_size, prefix_size};
ghost use Rattle.depex_code.specs.Kept.{reach_view, guids_view, form_view, piece_size};

use crate::measure::Measure;
use crate::opcode::{AFTER, AND, BEFORE, DEEPEST, FALSE, MOST, NOT, OR, PUSH, SOR, TRUE};
use crate::piece::{Code, Piece};
use crate::token::{Edge, Joiner, Prefix};
use build_base::{Guid, WantOfMemory};
use std::alloc::Global;

fn edge_code(edge: Edge) -> u8
    ensures { result ≡ edge_code edge }
{
    match edge {
        Edge::Before => BEFORE,
        Edge::After => AFTER,
    }
}

fn join_code(join: Joiner) -> u8
    ensures { result ≡ join_code join }
{
    match join {
        Joiner::And => AND,
        Joiner::Or => OR,
    }
}

/// Appends an opcode.
pub fn put(bytes: &mut Vec<u8>, opcode: u8) -> Result<(), WantOfMemory>
    ensures { OnOk result (bytes.new.items ≡ bytes.old.items ++ opcode ∷ []) }
{
    match bytes.push(opcode) {
        Ok(()) => Ok(()),
        Err(_) => Err(WantOfMemory),
    }
}

/// Appends a GUID behind the opcode that takes it.
pub fn put_guid(bytes: &mut Vec<u8>, opcode: u8, guid: Guid) -> Result<(), WantOfMemory>
    ensures { OnOk result (bytes.new.items ≡ bytes.old.items ++ opcode ∷ guid.0) }
{
    put(bytes, opcode)?;
    bytes.extend_from_slice(guid.0.as_slice())?;
    Ok(())
}

fn leaf(alone: bool, bytes: Vec<u8>, guids: Option<Vec<Guid>>) -> Piece
    ensures { piece_size result ≡ leaf_size alone bytes.items
        (option_map (λ v. guids_view v.items) guids) }
{
    let measure = Measure { deep: 1, count: 1 };
    Piece {
        code: Code { bytes, guids },
        measure,
        alone,
    }
}

fn opcode(alloc: Global, opcode: u8) -> Result<Vec<u8>, WantOfMemory>
    ensures { IfOk result (λ v. v.items ≡ opcode ∷ []) }
{
    let mut bytes = Vec::new(alloc);
    put(&mut bytes, opcode)?;
    Ok(bytes)
}

/// TRUE or FALSE.
pub fn constant(alloc: Global, value: bool) -> Result<Piece, WantOfMemory>
    ensures { IfOk result (λ p. piece_size p ≡ constant_size value) }
{
    if value {
        Ok(leaf(false, opcode(alloc, TRUE)?, Some(Vec::new(alloc))))
    } else {
        Ok(leaf(false, opcode(alloc, FALSE)?, None))
    }
}

fn with_guid(alloc: Global, opcode: u8, guid: Guid) -> Result<Vec<u8>, WantOfMemory>
    ensures { IfOk result (λ v. v.items ≡ opcode ∷ guid.0) }
{
    let mut bytes = Vec::new(alloc);
    put_guid(&mut bytes, opcode, guid)?;
    Ok(bytes)
}

fn only(alloc: Global, guid: Guid) -> Result<Vec<Guid>, WantOfMemory>
    ensures { IfOk result (λ v. guids_view v.items ≡ guid.0 ∷ []) }
{
    let mut guids = Vec::new(alloc);
    match guids.push(guid) {
        Ok(()) => Ok(guids),
        Err(_) => Err(WantOfMemory),
    }
}

/// A GUID name.
pub fn name(alloc: Global, guid: Option<Guid>) -> Result<Piece, WantOfMemory>
    ensures { IfOk result (λ p. piece_size p ≡ name_size guid) }
{
    match guid {
        None => constant(alloc, false),
        Some(guid) => {
            let bytes = with_guid(alloc, PUSH, guid)?;
            Ok(leaf(false, bytes, Some(only(alloc, guid)?)))
        }
    }
}

/// BEFORE or AFTER a GUID name.
pub(crate) fn edge_piece(
    alloc: Global,
    edge: Edge,
    guid: Option<Guid>,
) -> Result<Piece, WantOfMemory>
    ensures { IfOk result (λ p. piece_size p ≡ edge_size edge guid) }
{
    let bytes = match guid {
        None => opcode(alloc, edge_code(edge))?,
        Some(guid) => with_guid(alloc, edge_code(edge), guid)?,
    };
    Ok(leaf(true, bytes, None))
}

fn measure_of(deep: u32, count: u32) -> Measure
    ensures { reach_view result ≡ reach_of deep count }
{
    let deep = deep.min(DEEPEST + 1);
    let count = count.min(MOST + 1);
    Measure { deep, count }
}

/// The measure of two operands and what joins them. A long row of AND doesn't nest.
pub(crate) fn joined_measure(a: Measure, b: Measure) -> Measure
    ensures { reach_view result ≡ join_reach (reach_view a) (reach_view b) }
{
    measure_of(a.deep.max(b.deep + 1), a.count + b.count + 1)
}

/// The measure of an operand and what stands before it.
pub(crate) fn prefixed_measure(a: Measure) -> Measure
    ensures { reach_view result ≡ prefix_reach (reach_view a) }
{
    measure_of(a.deep + 1, a.count + 1)
}

fn fits(measure: Measure) -> bool
    ensures { result ≡ fits (reach_view measure) }
{
    measure.deep <= DEEPEST && measure.count <= MOST
}

fn no_code(alloc: Global) -> Code
    ensures { form_view result ≡ no_form }
{
    Code {
        bytes: Vec::new(alloc),
        guids: None,
    }
}

// No code where the limits are passed.
fn sized_piece(alloc: Global, code: Code, measure: Measure) -> Piece
    ensures { piece_size result ≡ sized_piece false (form_view code) (reach_view measure) }
{
    let code = if fits(measure) { code } else { no_code(alloc) };
    Piece {
        code,
        measure,
        alone: false,
    }
}

fn both_lists(a: Option<Vec<Guid>>, b: Option<Vec<Guid>>) -> Result<Option<Vec<Guid>>, WantOfMemory>
    ensures { IfOk result (λ r. option_map (λ v. guids_view v.items) r
        ≡ both_lists (option_map (λ v. guids_view v.items) a)
        (option_map (λ v. guids_view v.items) b)) }
{
    match (a, b) {
        (Some(a), Some(b)) => {
            let mut guids = a;
            guids.extend_from_slice(b.as_slice())?;
            Ok(Some(guids))
        }
        _ => Ok(None),
    }
}

fn joined_guids(
    join: Joiner,
    a: Option<Vec<Guid>>,
    b: Option<Vec<Guid>>,
) -> Result<Option<Vec<Guid>>, WantOfMemory>
    ensures { IfOk result (λ r. option_map (λ v. guids_view v.items) r
        ≡ join_guids join (option_map (λ v. guids_view v.items) a)
        (option_map (λ v. guids_view v.items) b)) }
{
    match join {
        Joiner::And => both_lists(a, b),
        Joiner::Or => Ok(None),
    }
}

fn joined_bytes(join: Joiner, a: Vec<u8>, b: Vec<u8>) -> Result<Vec<u8>, WantOfMemory>
    ensures { IfOk result (λ v. v.items ≡ a.items ++ b.items ++ join_code join ∷ []) }
{
    let mut bytes = a;
    bytes.extend_from_slice(b.as_slice())?;
    put(&mut bytes, join_code(join))?;
    Ok(bytes)
}

fn joined_code(join: Joiner, a: Code, b: Code) -> Result<Code, WantOfMemory>
    ensures { IfOk result (λ c. form_view c ≡ join_form join (form_view a) (form_view b)) }
{
    let bytes = joined_bytes(join, a.bytes, b.bytes)?;
    let guids = joined_guids(join, a.guids, b.guids)?;
    Ok(Code { bytes, guids })
}

/// Two operands and what joins them.
pub(crate) fn join_pieces(
    alloc: Global,
    join: Joiner,
    a: Piece,
    b: Piece,
) -> Result<Piece, WantOfMemory>
    ensures { IfOk result (λ p. piece_size p ≡ join_size join (piece_size a) (piece_size b)) }
{
    let measure = joined_measure(a.measure, b.measure);
    let code = joined_code(join, a.code, b.code)?;
    Ok(sized_piece(alloc, code, measure))
}

fn prefixed_bytes(alloc: Global, prefix: Prefix, a: Vec<u8>) -> Result<Vec<u8>, WantOfMemory>
    ensures { IfOk result (λ v. v.items ≡ prefix_bytes prefix a.items) }
{
    match prefix {
        Prefix::Not => {
            let mut bytes = a;
            put(&mut bytes, NOT)?;
            Ok(bytes)
        }
        Prefix::Sor => {
            let mut bytes = Vec::new(alloc);
            put(&mut bytes, SOR)?;
            bytes.extend_from_slice(a.as_slice())?;
            Ok(bytes)
        }
    }
}

fn prefixed_code(alloc: Global, prefix: Prefix, a: Code) -> Result<Code, WantOfMemory>
    ensures { IfOk result (λ c. form_view c ≡ prefix_form prefix (form_view a)) }
{
    let bytes = prefixed_bytes(alloc, prefix, a.bytes)?;
    Ok(Code { bytes, guids: None })
}

/// An operand and what stands before it.
pub(crate) fn prefix_piece(alloc: Global, prefix: Prefix, a: Piece) -> Result<Piece, WantOfMemory>
    ensures { IfOk result (λ p. piece_size p ≡ prefix_size prefix (piece_size a)) }
{
    let measure = prefixed_measure(a.measure);
    let code = prefixed_code(alloc, prefix, a.code)?;
    Ok(sized_piece(alloc, code, measure))
}
