//! Paths of the workspace.
ghost use Rattle.std.specs.Prelude.{◌≡◌, ◌≤◌, ◌<◌, ◌+◌, ◌-◌, ◌∷◌, ◌++◌, length, get_or, IfOk, OnOk, MatchOption, true, false};
ghost use Rattle.std.specs.Prelude.{◌==◌};
ghost use Rattle.std.specs.List.{list_all, position, position_or_len};
ghost use Rattle.std.proofs.Common.{rules};
ghost use Rattle.std.specs.Prelude.{nat_eq};
ghost use Rattle.std.specs.Cmp.{partial_order_from_own_ties};
ghost use Rattle.std.specs.Cmp.Rules.{comparing};
ghost use Rattle.std.specs.Cmp.Lexicographic.{pointwise, slice_cmp};
ghost use Rattle.std.specs.Ordering.{nat_cmp, as_partial_cmp};
ghost use Rattle.build_base.specs.Digest.{digest, path_input, equal_paths};
ghost use Rattle.build_base.specs.Path.{IsPath, IsPathField, path_field, folder_of, folder_size, is_path, is_segment, is_dots, is_path_byte};

use crate::bytes::digest;
use crate::same::Same;
use crate::text::{Text, WantOfMemory};
use std::alloc::Global;
use std::cmp::Ordering;
use std::hash::{Hash, Hasher};
use std::marker::Model;

/// A file in the workspace, from its root: segments joined by single slashes. It knows a number of
/// its text, so that other paths are mostly told apart without a look at their bytes.
#[derive(Debug, Drop)]
pub struct Path {
    text: Text,
    mark: u64,
}

impl Model for Path {
    ghost use Rattle.std.specs.Prelude.{List, ℕ};

    ghost Value = { List ℕ };

    ghost use Rattle.std.specs.Prelude.{◌≡◌};
    ghost use Rattle.build_base.specs.Digest.{digest};
    ghost use Rattle.build_base.specs.Path.{IsPath};

    ghost view = { λ p. p.text };

    ghost invariant = { λ p. IsPath p.text × (p.mark ≡ digest p.text) };
}

/// Why a text is no path.
#[derive(Clone, Copy, Debug, PartialEq, Eq)]
pub enum PathRefusal {
    BadPath,
    WantOfMemory,
}

#[tactic(auto, unfolding(crate::specs::Path::is_path_byte))]
fn is_path_byte(byte: u8) -> bool
    ensures { result ≡ is_path_byte byte }
{
    matches!(byte, b'a'..=b'z' | b'A'..=b'Z' | b'0'..=b'9' | b'_' | b'-' | b'+' | b'.')
}

#[tactic(auto, unfolding(crate::specs::Path::is_segment))]
fn is_segment(segment: &[u8]) -> bool
    ensures { result ≡ is_segment segment.now }
{
    has_path_bytes(segment) && !is_dots(segment)
}

fn has_path_bytes(segment: &[u8]) -> bool
    ensures { result ≡ list_all is_path_byte segment.now }
{
    segment.iter().all(|byte| is_path_byte(*byte))
}

#[tactic(auto, unfolding(crate::specs::Path::is_dots))]
fn is_dots(segment: &[u8]) -> bool
    ensures { result ≡ is_dots segment.now }
{
    segment.len() <= 2 && has_dots_alone(segment)
}

fn has_dots_alone(segment: &[u8]) -> bool
    ensures { result ≡ list_all (λ byte. byte == 46) segment.now }
{
    segment.iter().all(|byte| *byte == b'.')
}

fn slash_at(text: &[u8]) -> Option<usize>
    ensures { result ≡ position (λ byte. byte == 47) text.now }
{
    text.iter().position(|byte| *byte == b'/')
}

// The place of the first slash, or the length.
#[tactic(auto, using(crate::proofs::PathLemmas::until_first))]
fn until_slash(text: &[u8]) -> usize
    ensures place { result ≡ position_or_len (λ byte. byte == 47) text.now }
    ensures within { result ≤ length text.now }
{
    slash_at(text).unwrap_or(text.len())
}

/// Whether a text is segments joined by single slashes.
#[tactic(auto, using(crate::proofs::PathLemmas::is_path_last, crate::proofs::PathLemmas::is_path_step))]
pub fn is_path(text: &[u8]) -> bool
    ensures { result ≡ is_path text.now }
{
    let end = until_slash(text);
    if end == text.len() {
        return is_segment(text);
    }
    is_segment(&text[..end]) && is_path(&text[end + 1..])
}

impl Path {
    fn from_checked(text: Text) -> Path
        requires { IsPath text }
        ensures { result ≡ text }
    {
        let mark = digest(text.bytes());
        Path { text, mark }
    }

    /// The path that a field of a document names: at most 512 bytes.
    pub fn new(alloc: Global, text: &[u8]) -> Result<Path, PathRefusal>
        ensures path { IfOk result (λ p. p ≡ text.now) }
        ensures form { OnOk result (IsPathField text.now) }
        ensures bad { result ≡ Err PathRefusal.BadPath → ¬ IsPathField text.now }
    {
        if text.len() > 512 || !is_path(text) {
            return Err(PathRefusal::BadPath);
        }
        match Text::of(alloc, text) {
            Ok(text) => Ok(Path::from_checked(text)),
            Err(_) => Err(PathRefusal::WantOfMemory),
        }
    }

    /// The path that a text is, of any length.
    pub fn of_text(text: Text) -> Option<Path>
        ensures { MatchOption result (is_path text ≡ false)
            (λ p. (p ≡ text) × (is_path text ≡ true)) }
    {
        if is_path(text.bytes()) {
            Some(Path::from_checked(text))
        } else {
            None
        }
    }

    /// Its text.
    #[inline(always)]
    pub fn bytes(&self) -> &[u8]
        ensures text { result.now ≡ self.now }
        ensures form { IsPath self.now }
    {
        self.text.bytes()
    }

    /// A number of its text; others may have it too.
    #[inline(always)]
    pub fn digest(&self) -> u64
        ensures { result ≡ digest self.now }
    {
        self.mark
    }

    /// The path of a file below this one, taken as a folder.
    #[tactic(auto, using(crate::proofs::PathLemmas::path_joins))]
    pub fn join(&self, alloc: Global, more: &Path) -> Result<Path, WantOfMemory>
        requires { length self.now + 1 + length more.now ≤ 2048 }
        ensures { IfOk result (λ p. p ≡ self.now ++ 47 ∷ more.now) }
    {
        let mut bytes = Vec::from_slice(alloc, self.bytes())?;
        push_segment(&mut bytes, more.bytes())?;
        Ok(Path::from_checked(Text::of(alloc, bytes.as_slice())?))
    }
}

// How long a path is up to and with its last slash.
fn folder_size(text: &[u8]) -> usize
    ensures size { result ≡ folder_size text.now }
    ensures within { result ≤ length text.now }
    ensures slash { 0 < result → get_or text.now (result - 1) 0 ≡ 47 }
{
    let mut n = text.len();
    while n > 0 && text[n - 1] != b'/' {
        n -= 1;
    }
    n
}

impl Path {
    /// The folder of a file, or nothing where it stands at the root.
    #[tactic(auto, using(crate::proofs::PathLemmas::is_path_front))]
    pub fn folder(&self, alloc: Global) -> Result<Option<Path>, WantOfMemory>
        ensures { IfOk result (λ p. p ≡ folder_of self.now) }
    {
        let bytes = self.bytes();
        let size = folder_size(bytes);
        if size == 0 {
            return Ok(None);
        }
        Ok(Some(Path::from_checked(Text::of(alloc, &bytes[..size - 1])?)))
    }
}

/// The path that a text names, or nothing where it names none.
pub fn path_field(alloc: Global, text: &[u8]) -> Result<Option<Path>, WantOfMemory>
    ensures { IfOk result (λ p. p ≡ path_field text.now) }
{
    match Path::new(alloc, text) {
        Ok(path) => Ok(Some(path)),
        Err(PathRefusal::BadPath) => Ok(None),
        Err(PathRefusal::WantOfMemory) => Err(WantOfMemory),
    }
}

impl Same for Path {
    fn copy(&self, alloc: Global) -> Result<Path, WantOfMemory> {
        Ok(Path {
            text: self.text.copy(alloc)?,
            mark: self.mark,
        })
    }

    fn same(&self, other: &Path) -> bool {
        self == other
    }
}

impl PartialEq for Path {
    ghost eq = { pointwise nat_eq };

    ghost laws = { Prim.search (comparing, rules) };

    #[inline(always)]
    #[tactic(auto, using(crate::proofs::PathLemmas::other_digest))]
    fn eq(&self, other: &Path) -> bool {
        self.mark == other.mark && self.bytes() == other.bytes()
    }
}

impl Eq for Path {
    ghost laws = { Prim.search (comparing, rules) };
}

impl Hash for Path {
    ghost hash_input = { path_input };

    ghost respects_eq = { equal_paths };

    fn hash<H: Hasher>(&self, state: &mut H) {
        state.write_u64(self.mark);
    }
}

impl PartialOrd for Path {
    ghost partial_cmp = { as_partial_cmp (slice_cmp nat_cmp) };

    ghost laws = { partial_order_from_own_ties (Prim.search (comparing, rules))
        (Prim.search (comparing, rules)) };

    fn partial_cmp(&self, other: &Path) -> Option<Ordering> {
        Some(self.cmp(other))
    }
}

impl Ord for Path {
    ghost cmp = { slice_cmp nat_cmp };

    ghost total = { Prim.search (comparing, rules) };

    ghost matches_partial_cmp = { Prim.search (comparing, rules) };

    ghost matches_eq = { Prim.search (comparing, rules) };

    fn cmp(&self, other: &Path) -> Ordering {
        self.bytes().cmp(other.bytes())
    }
}

fn push_segment(bytes: &mut Vec<u8>, more: &[u8]) -> Result<(), WantOfMemory>
    ensures { OnOk result (bytes.new.items ≡ bytes.old.items ++ 47 ∷ more.now) }
{
    if bytes.push(b'/').is_err() {
        return Err(WantOfMemory);
    }
    bytes.extend_from_slice(more)?;
    Ok(())
}
