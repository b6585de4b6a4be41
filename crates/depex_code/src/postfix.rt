//! Reads opcodes one by one.
ghost use Rattle.std.specs.Prelude.{◌≡◌, ◌+◌, ◌≤◌, ◌<◌, ◌∷◌, if◌then◌else◌, IfOk, OnOk, length, option_map, slice_index};
ghost use Rattle.depex_code.specs.Tree.{tree_of, neg, nest};
ghost use Rattle.depex_code.specs.Postfix.{leaf, join_trees, join, negate, trees, trees_are, ready, stuck, Applied, Turned, Ran};

use crate::held::Held;
use crate::opcode::{AFTER, AND, BEFORE, DEEPEST, FALSE, NOT, OR, PUSH, TRUE};
use build_base::{Guid, WantOfMemory};
use doc_types::depex::Depex;
use std::alloc::Global;

/// A tree in a box.
pub(crate) fn box_of(alloc: Global, tree: Depex) -> Result<Box<Depex>, WantOfMemory>
    ensures { IfOk result (λ b. b.value ≡ tree) }
{
    match Box::new(alloc, tree) {
        Ok(b) => Ok(b),
        Err(_) => Err(WantOfMemory),
    }
}

fn leaf(kind: u8, guid: Guid) -> Depex
    ensures { tree_of result ≡ leaf kind guid.0 }
{
    match kind {
        BEFORE => Depex::Before(guid),
        AFTER => Depex::After(guid),
        _ => Depex::Push(guid),
    }
}

fn join_trees(alloc: Global, op: u8, a: Depex, b: Depex) -> Result<Depex, WantOfMemory>
    ensures { IfOk result (λ t. tree_of t ≡ join_trees op (tree_of a) (tree_of b)) }
{
    let a = box_of(alloc, a)?;
    let b = box_of(alloc, b)?;
    if op == AND {
        Ok(Depex::And(a, b))
    } else {
        Ok(Depex::Or(a, b))
    }
}

fn negate_tree(alloc: Global, a: Depex) -> Result<Depex, WantOfMemory>
    ensures { IfOk result (λ t. tree_of t ≡ neg (tree_of a)) }
{
    Ok(Depex::Not(box_of(alloc, a)?))
}

fn put(stack: &mut Vec<Held>, held: Held) -> Result<(), WantOfMemory>
    ensures { OnOk result (trees stack.new.items ≡ tree_of held.tree ∷ trees stack.old.items) }
{
    match stack.push(held) {
        Ok(()) => Ok(()),
        Err(_) => Err(WantOfMemory),
    }
}

fn take(stack: &mut Vec<Held>) -> Option<Held>
    ensures { trees_are (trees stack.old.items) (option_map (λ h. tree_of h.tree) result)
        (trees stack.new.items) }
{
    stack.pop()
}

fn put_leaf(kind: u8, guid: Guid, stack: &mut Vec<Held>) -> Result<(), WantOfMemory>
    ensures { OnOk result (trees stack.new.items ≡ leaf kind guid.0 ∷ trees stack.old.items) }
{
    let tree = leaf(kind, guid);
    put(stack, Held { tree, deep: 1 })
}

fn join(alloc: Global, op: u8, stack: &mut Vec<Held>) -> Result<bool, WantOfMemory>
    ensures { IfOk result (λ goes. join op (trees stack.old.items)
        ≡ (if goes then ready (trees stack.new.items) else stuck)) }
{
    let b = match take(stack) {
        Some(b) => b,
        None => return Ok(false),
    };
    let a = match take(stack) {
        Some(a) => a,
        None => return Ok(false),
    };
    let deep = a.deep.max(b.deep + 1);
    if deep > DEEPEST {
        return Ok(false);
    }
    let tree = join_trees(alloc, op, a.tree, b.tree)?;
    put(stack, Held { tree, deep })?;
    Ok(true)
}

fn negate(alloc: Global, stack: &mut Vec<Held>) -> Result<bool, WantOfMemory>
    ensures { IfOk result (λ goes. negate (trees stack.old.items)
        ≡ (if goes then ready (trees stack.new.items) else stuck)) }
{
    let operand = match take(stack) {
        Some(operand) => operand,
        None => return Ok(false),
    };
    if operand.deep >= DEEPEST {
        return Ok(false);
    }
    let deep = operand.deep + 1;
    let tree = negate_tree(alloc, operand.tree)?;
    put(stack, Held { tree, deep })?;
    Ok(true)
}

// True or False.
fn put_constant(tree: Depex, stack: &mut Vec<Held>) -> Result<bool, WantOfMemory>
    requires { nest (tree_of tree) ≡ 1 }
    ensures { IfOk result (λ goes. ready (tree_of tree ∷ trees stack.old.items)
        ≡ (if goes then ready (trees stack.new.items) else stuck)) }
{
    put(stack, Held { tree, deep: 1 })?;
    Ok(true)
}

// Carries out an opcode; false where the operands are wanting or nest too deep.
fn apply(alloc: Global, op: u8, stack: &mut Vec<Held>) -> Result<bool, WantOfMemory>
    ensures { IfOk result (Applied op stack.old.items stack.new.items) }
{
    match op {
        0..=OR => join(alloc, op, stack),
        NOT => negate(alloc, stack),
        TRUE => put_constant(Depex::True, stack),
        FALSE => put_constant(Depex::False, stack),
        _ => Ok(false),
    }
}

fn guid_at(bytes: &[u8]) -> Guid
    requires { length bytes.now ≡ 16 }
    ensures { result.0 ≡ bytes.now }
{
    let mut guid = [0; 16];
    guid.copy_from_slice(bytes);
    Guid(guid)
}

// Reads an opcode and its GUID; None where the bytes end within it.
fn take_guid(bytes: &[u8], at: usize, stack: &mut Vec<Held>) -> Result<Option<usize>, WantOfMemory>
    requires within { at < length bytes.now }
    requires is_leaf { slice_index bytes.now at ≤ 2 }
    ensures { IfOk result (Turned bytes.now at stack.old.items stack.new.items) }
{
    if bytes.len() - at < 17 {
        return Ok(None);
    }
    let guid = guid_at(&bytes[at + 1..at + 17]);
    put_leaf(bytes[at], guid, stack)?;
    Ok(Some(at + 17))
}

// Carries out another opcode; None where it cannot be.
fn take_op(
    alloc: Global,
    bytes: &[u8],
    at: usize,
    stack: &mut Vec<Held>,
) -> Result<Option<usize>, WantOfMemory>
    requires within { at < length bytes.now }
    requires no_leaf { 2 < slice_index bytes.now at }
    ensures { IfOk result (Turned bytes.now at stack.old.items stack.new.items) }
{
    let goes = apply(alloc, bytes[at], stack)?;
    if !goes {
        return Ok(None);
    }
    Ok(Some(at + 1))
}

fn turn(
    alloc: Global,
    bytes: &[u8],
    at: usize,
    stack: &mut Vec<Held>,
) -> Result<Option<usize>, WantOfMemory>
    requires { at < length bytes.now }
    ensures { IfOk result (Turned bytes.now at stack.old.items stack.new.items) }
{
    if bytes[at] <= PUSH {
        take_guid(bytes, at, stack)
    } else {
        take_op(alloc, bytes, at, stack)
    }
}

/// The trees of the bytes; None where they don't end with a whole opcode, have an opcode without
/// its operands, or go past a limit.
pub fn run(alloc: Global, bytes: &[u8], most: usize) -> Result<Option<Vec<Held>>, WantOfMemory>
    ensures { IfOk result (λ r. Ran bytes.now most (option_map (λ stack. stack.items) r)) }
{
    let mut stack = Vec::new(alloc);
    let mut count = 0;
    let mut at = 0;
    while at < bytes.len() {
        if count == most {
            return Ok(None);
        }
        match turn(alloc, bytes, at, &mut stack)? {
            Some(next) => at = next,
            None => return Ok(None),
        }
        count += 1;
    }
    Ok(Some(stack))
}
