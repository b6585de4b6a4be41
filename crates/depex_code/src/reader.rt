//! Reads an expression from its bytes.
ghost use Rattle.std.specs.Prelude.{◌≡◌, ◌==◌, ◌≤◌, ◌∷◌, ◌++◌, [], IfOk, option_map, slice_index};
ghost use Rattle.depex_code.specs.Tree.{tree_of, sor, ReadBack};
ghost use Rattle.depex_code.specs.Postfix.{trees, OnlyIs, BodyRead, SorRead};

use crate::held::Held;
use crate::opcode::{DEEPEST, END, MOST, SOR};
use crate::postfix::{box_of, run};
use build_base::WantOfMemory;
use doc_types::depex::Depex;
use std::alloc::Global;

fn only(mut stack: Vec<Held>) -> Option<Held>
    ensures { OnlyIs (trees stack.items) (option_map (λ h. tree_of h.tree) result) }
{
    if stack.len() != 1 {
        return None;
    }
    stack.pop()
}

// A tree without Sor; extra is what a Sor around it adds.
fn body(alloc: Global, bytes: &[u8], extra: u32) -> Result<Option<Depex>, WantOfMemory>
    requires { extra ≤ 1 }
    ensures { IfOk result (λ r. BodyRead bytes.now extra (option_map tree_of r)) }
{
    let stack = match run(alloc, bytes, (MOST - extra) as usize)? {
        Some(stack) => stack,
        None => return Ok(None),
    };
    let held = match only(stack) {
        Some(held) => held,
        None => return Ok(None),
    };
    if held.deep > DEEPEST - extra {
        return Ok(None);
    }
    Ok(Some(held.tree))
}

fn within_sor(alloc: Global, tree: Depex) -> Result<Depex, WantOfMemory>
    ensures { IfOk result (λ t. tree_of t ≡ sor (tree_of tree)) }
{
    Ok(Depex::Sor(box_of(alloc, tree)?))
}

fn with_sor(alloc: Global, bytes: &[u8]) -> Result<Option<Depex>, WantOfMemory>
    ensures { IfOk result (λ r. SorRead bytes.now (option_map tree_of r)) }
{
    match body(alloc, bytes, 1)? {
        Some(tree) => Ok(Some(within_sor(alloc, tree)?)),
        None => Ok(None),
    }
}

fn begins_with_sor(front: &[u8]) -> bool
    ensures { result ≡ (slice_index front.now 0 == 9) }
{
    match front.first() {
        Some(op) => *op == SOR,
        None => false,
    }
}

// The bytes are without END here.
fn read_front(alloc: Global, front: &[u8]) -> Result<Option<Depex>, WantOfMemory>
    ensures { IfOk result (λ r. ReadBack (front.now ++ 8 ∷ []) (option_map tree_of r)) }
{
    let sor = begins_with_sor(front);
    if sor {
        let read = with_sor(alloc, &front[1..])?;
        return Ok(read);
    }
    let read = body(alloc, front, 0)?;
    Ok(read)
}

/// The tree whose bytes these are: at most 64 deep, and at most 4,096 opcodes before END. Only
/// opcodes of the UEFI PI specification are read; SOR is one at the front alone.
pub fn read_back(alloc: Global, bytes: &[u8]) -> Result<Option<Depex>, WantOfMemory>
    ensures { IfOk result (λ r. ReadBack bytes.now (option_map tree_of r)) }
{
    let n = bytes.len();
    if n == 0 {
        return Ok(None);
    }
    if bytes[n - 1] != END {
        return Ok(None);
    }
    let read = read_front(alloc, &bytes[..n - 1])?;
    Ok(read)
}
