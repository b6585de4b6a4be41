//! Macros and their uses in a text.
ghost use Rattle.std.specs.Prelude.{◌≡◌, ◌≤◌, ◌+◌, ◌<◌, length, IfOk, IfSome, OnOk, ◌++◌, None, drop};
ghost use Rattle.std.specs.Option.{option_map};
ghost use Rattle.macro_expressions.specs.Macros.{use_at, value_of, undefined, meaning, replaced, is_plain, begins_at_workspace, without_workspace};
ghost use Rattle.macro_expressions.specs.Scopes.{scope_of};

use crate::table::{ListedMacros, MacroTable};
use build_base::WantOfMemory;
use meta_lexer::token::word_size;
use meta_lexer::words::{is_identifier, place_of};
use std::alloc::Global;

/// What stands in a text for the use of a macro that isn't defined: the use as written, or `0`.
#[derive(Clone, Copy, PartialEq, Eq)]
pub enum Undefined {
    Kept,
    Zero,
}

/// The macros of the files, and the fixed ones, which hold above them.
#[derive(Clone, Copy)]
pub struct Scope<'a> {
    pub files: &'a MacroTable,
    pub fixed: &'a ListedMacros<'a>,
}

/// The length of the name, where the text begins with the use of a macro.
#[tactic(auto, unfolding(crate::specs::Macros::use_at))]
pub fn use_at(text: &[u8]) -> Option<usize>
    ensures at { result ≡ use_at text.now }
    ensures within { IfSome result (λ n. n + 3 ≤ length text.now) }
{
    if text.len() < 2 || text[0] != b'$' || text[1] != b'(' {
        return None;
    }
    let n = word_size(&text[2..]);
    if n + 2 < text.len() && text[n + 2] == b')' && is_identifier(&text[2..n + 2]) {
        Some(n)
    } else {
        None
    }
}

impl<'a> Scope<'a> {
    /// The value of a macro, if it is defined.
    #[tactic(auto, using(crate::proofs::MacroFronts::value_of_two))]
    pub fn value_of(self, name: &[u8]) -> Option<&'a [u8]>
        ensures { option_map (λ v. v.now) result ≡ value_of name.now (scope_of self.entry) }
    {
        match self.fixed.value_of(name) {
            Some(value) => Some(value),
            None => self.files.value_of(name),
        }
    }
}

fn push_bytes(out: &mut Vec<u8>, bytes: &[u8]) -> Result<(), WantOfMemory>
    ensures { OnOk result (out.new.items ≡ out.old.items ++ bytes.now) }
{
    match out.extend_from_slice(bytes) {
        Ok(()) => Ok(()),
        Err(_) => Err(WantOfMemory),
    }
}

// Writes what stands for the use of a macro at the front.
fn write_use(
    out: &mut Vec<u8>,
    undefined: Undefined,
    scope: Scope<'_>,
    n: usize,
    rest: &[u8],
) -> Result<(), WantOfMemory>
    requires { n + 3 ≤ length rest.now }
    ensures { OnOk result (out.new.items ≡ out.old.items
        ++ meaning undefined (scope_of scope.entry) n rest.now) }
{
    match scope.value_of(&rest[2..n + 2]) {
        Some(value) => push_bytes(out, value),
        None => match undefined {
            Undefined::Kept => push_bytes(out, &rest[..n + 3]),
            Undefined::Zero => push_bytes(out, b"0".as_slice()),
        },
    }
}

// Writes what the front of the text comes to, and answers how many bytes that was: a use of a
// macro, or all that stands before the next byte that may begin one.
fn write_front(
    out: &mut Vec<u8>,
    undefined: Undefined,
    scope: Scope<'_>,
    rest: &[u8],
) -> Result<usize, WantOfMemory>
    requires { 0 < length rest.now }
    ensures some { IfOk result (λ k. 0 < k) }
    ensures within { IfOk result (λ k. k ≤ length rest.now) }
    ensures text { IfOk result
        (λ k. out.new.items ++ replaced undefined (scope_of scope.entry) (drop k rest.now)
        ≡ out.old.items ++ replaced undefined (scope_of scope.entry) rest.now) }
{
    match use_at(rest) {
        Some(n) => {
            write_use(out, undefined, scope, n, rest)?;
            Ok(n + 3)
        }
        None => {
            let plain = place_of(b'$', &rest[1..]) + 1;
            push_bytes(out, &rest[..plain])?;
            Ok(plain)
        }
    }
}

/// The text with its macros replaced, once, from left to right.
pub fn replace(
    alloc: Global,
    undefined: Undefined,
    scope: Scope<'_>,
    text: &[u8],
) -> Result<Vec<u8>, WantOfMemory>
    ensures { IfOk result (λ v. v.items ≡ replaced undefined (scope_of scope.entry) text.now) }
{
    let mut out = Vec::new(alloc);
    let mut i = 0;
    while i < text.len() {
        i += write_front(&mut out, undefined, scope, &text[i..])?;
    }
    Ok(out)
}

/// Whether no `$` stands in the text, so that it is what it comes to.
pub fn is_plain(text: &[u8]) -> bool
    ensures { result ≡ is_plain text.now }
{
    text.iter().all(|byte| *byte != b'$')
}

fn begins_at_workspace(field: &[u8]) -> bool
    ensures { result ≡ begins_at_workspace field.now }
{
    field.len() >= 13 && &field[..13] == b"$(WORKSPACE)/".as_slice()
}

/// A path field without `$(WORKSPACE)/` at its front.
#[tactic(auto, unfolding(crate::specs::Macros::without_workspace))]
pub fn without_workspace(field: &[u8]) -> &[u8]
    ensures { result.now ≡ without_workspace field.now }
{
    if begins_at_workspace(field) {
        &field[13..]
    } else {
        field
    }
}
