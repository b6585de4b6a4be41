//! Parts of a text between marks that stand outside quotes, parentheses and braces.
ghost use Rattle.std.specs.Prelude.{◌≡◌, ◌+◌, ◌-◌, ◌<◌, ◌≤◌, ◌^◌, ◌==◌, length, not, IfOk, OnOk, ◌++◌, ◌∷◌, []};
ghost use Rattle.std.specs.List.{suffix_len, All};
ghost use Rattle.meta_lexer.specs.Faults.{ReadsAs};
ghost use Rattle.meta_lexer.specs.Fields.{fields_of, parts_of, open_view, after, separates, ends_quoted, IsWithin};

use crate::refusal::LexRefusal;
use build_base::WantOfMemory;
use build_base::fault_codes::OPEN_QUOTE;
use std::alloc::Global;

/// A part of a text, from `start` up to and without `end`.
#[derive(Clone, Copy, Debug, PartialEq, Eq)]
pub struct Span {
    pub start: u64,
    pub end: u64,
}

// What is open at a place of a text.
#[derive(Clone, Copy)]
struct Open {
    quoted: bool,
    depth: u64,
}

impl Open {
    fn after(self, nests: bool, b: u8) -> Open
        requires { self.depth < 2 ^ 63 }
        ensures view { open_view result ≡ after nests (open_view self) b }
        ensures small { result.depth ≤ self.depth + 1 }
    {
        match b {
            b'"' => Open {
                quoted: !self.quoted,
                depth: self.depth,
            },
            _ if self.quoted || !nests => self,
            b'(' | b'{' => Open {
                quoted: false,
                depth: self.depth + 1,
            },
            b')' | b'}' => Open {
                quoted: false,
                depth: self.depth.saturating_sub(1),
            },
            _ => self,
        }
    }

    fn separates(self, mark: u8, b: u8) -> bool
        ensures { result ≡ separates mark (open_view self) b }
    {
        b == mark && !self.quoted && self.depth == 0
    }
}

// Where the last quote stands; 0 where there is none.
pub(crate) fn last_quote(text: &[u8]) -> usize
    ensures { result ≡ length text.now - suffix_len (λ b. not (b == 34)) text.now - 1 }
{
    let mut n = text.len();
    while n > 0 && text[n - 1] != b'"' {
        n -= 1;
    }
    n.saturating_sub(1)
}

/// Whether a quote is open at the end of a text.
#[tactic(auto, unfolding(crate::specs::Fields::ends_quoted))]
pub fn ends_quoted(text: &[u8]) -> bool
    ensures { result ≡ ends_quoted text.now }
{
    let mut quoted = false;
    for b in text {
        if *b == b'"' {
            quoted = !quoted;
        }
    }
    quoted
}

fn push(found: &mut Vec<Span>, start: u64, end: u64) -> Result<(), WantOfMemory>
    ensures { OnOk result (found.new.items ≡ found.old.items ++ record { start = start; end = end }
        ∷ []) }
{
    match found.push(Span { start, end }) {
        Ok(()) => Ok(()),
        Err(_) => Err(WantOfMemory),
    }
}

/// The parts between marks that stand outside quotes, and outside parentheses and braces where
/// these nest.
pub fn split_unquoted(
    alloc: Global,
    nests: bool,
    mark: u8,
    text: &[u8],
) -> Result<Vec<Span>, WantOfMemory>
    ensures parts { IfOk result (λ v. v.items ≡ parts_of nests mark text.now) }
    ensures within { IfOk result (λ v. All (IsWithin text.now) v.items) }
{
    let mut found = Vec::new(alloc);
    let mut open = Open {
        quoted: false,
        depth: 0,
    };
    let mut start = 0;
    for (i, b) in text.iter().enumerate() {
        if open.separates(mark, *b) {
            push(&mut found, start, i as u64)?;
            start = i as u64 + 1;
        }
        open = open.after(nests, *b);
    }
    let end = text.len() as u64;
    push(&mut found, start, end)?;
    Ok(found)
}

/// The fields of a line, between `|`.
#[tactic(auto, unfolding(crate::specs::Fields::fields_of))]
pub fn fields(alloc: Global, text: &[u8]) -> Result<Vec<Span>, LexRefusal>
    ensures fields { ReadsAs (λ v. v.items) result (fields_of text.now) }
    ensures within { IfOk result (λ v. All (IsWithin text.now) v.items) }
{
    if ends_quoted(text) {
        return Err(LexRefusal::Bad {
            code: OPEN_QUOTE,
            line: 1,
            start: last_quote(text) as u64,
            end: text.len() as u64,
        });
    }
    Ok(split_unquoted(alloc, true, b'|', text)?)
}
