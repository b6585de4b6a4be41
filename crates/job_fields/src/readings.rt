//! What is read from the fields of a job.
ghost use Rattle.std.specs.Prelude.{◌≡◌, ◌<◌, ◌==◌, ◌+◌, ◌++◌, length, take, drop, map, IfOk, OnOk, IfSome, Some};
ghost use Rattle.std.specs.List.{position, slice_split};
ghost use Rattle.std.specs.Option.{is_some, option_map};
ghost use Rattle.job_fields.specs.Readings.{texts_in, name_in, file_in, listed, each_there, arch_in, arches_in, set_named, set_in, sets_in};

use build_base::path::path_field;
use build_base::{Path, Place, Rows, Same, Text, WantOfMemory};
use doc_types::arch::{Arch, arch_named};
use doc_types::pcd::{PcdName, PcdSet};
use std::alloc::{AllocError, Global};

fn cut_at_feeds(alloc: Global, texts: &[u8]) -> Result<Vec<&[u8]>, AllocError>
    ensures { IfOk result
        (λ parts. map (λ part. part.now) parts.items ≡ slice_split (λ b. b == 10) texts.now) }
{
    texts.split(|byte| *byte == b'\n').collect(alloc)
}

// The same texts, owned.
fn each_text(alloc: Global, texts: &[&[u8]]) -> Result<Rows<Text>, WantOfMemory>
    ensures { IfOk result (λ rows. rows ≡ map (λ text. text.now) texts.now) }
{
    let mut rows = Rows::new(alloc);
    for text in texts {
        rows.push(Text::of(alloc, text)?)?;
    }
    Ok(rows)
}

/// The texts that line feeds join, none where there is no byte.
#[tactic(auto, unfolding(crate::specs::Readings::texts_in))]
pub fn texts_in(alloc: Global, text: &[u8]) -> Result<Rows<Text>, WantOfMemory>
    ensures { IfOk result (λ texts. texts ≡ texts_in text.now) }
{
    if text.is_empty() {
        return Ok(Rows::new(alloc));
    }
    let parts = cut_at_feeds(alloc, text)?;
    each_text(alloc, parts.as_slice())
}

/// A name, where one is given.
pub fn name_in(text: &[u8]) -> Option<&[u8]>
    ensures { option_map (λ name. name.now) result ≡ name_in text.now }
{
    if text.is_empty() { None } else { Some(text) }
}

fn some_file(path: Option<Path>) -> Option<Option<Path>>
    ensures { result ≡ option_map Some path }
{
    match path {
        Some(path) => Some(Some(path)),
        None => None,
    }
}

/// A file, where one is given, or none where the text is no path.
pub fn file_in(alloc: Global, text: &[u8]) -> Result<Option<Option<Path>>, WantOfMemory>
    ensures { IfOk result (λ file. file ≡ file_in text.now) }
{
    if text.is_empty() {
        return Ok(Some(None));
    }
    let path = path_field(alloc, text)?;
    Ok(some_file(path))
}

/// An architecture that can be built, or none.
pub fn arch_in(text: &[u8]) -> Option<Arch>
    ensures { result ≡ arch_in text.now }
{
    match arch_named(text) {
        None | Some(Arch::Common) => None,
        Some(arch) => Some(arch),
    }
}

#[tactic(auto, using(crate::proofs::EachLemmas::none_made, crate::proofs::EachLemmas::one_more, crate::proofs::EachLemmas::one_less), unfolding(crate::specs::Readings::each_there))]
fn each_arch(alloc: Global, texts: &[Text]) -> Result<Option<Rows<Arch>>, WantOfMemory>
    ensures { IfOk result (λ arches. arches ≡ each_there (map arch_in texts.now)) }
{
    let mut arches = Rows::new(alloc);
    let mut left = texts;
    while let [text, rest @ ..] = left {
        let Some(arch) = arch_in(text.bytes()) else {
            return Ok(None);
        };
        arches.push(arch)?;
        left = rest;
    }
    Ok(Some(arches))
}

/// Architectures that can be built, or none where a line is no name of one.
#[tactic(auto, unfolding(crate::specs::Readings::arches_in))]
pub fn arches_in(alloc: Global, text: &[u8]) -> Result<Option<Rows<Arch>>, WantOfMemory>
    ensures { IfOk result (λ arches. arches ≡ arches_in text.now) }
{
    let texts = texts_in(alloc, text)?;
    each_arch(alloc, texts.items())
}

fn byte_at(text: &[u8], wanted: u8) -> Option<usize>
    ensures at { result ≡ position (λ byte. byte == wanted) text.now }
    ensures within { IfSome result (λ at. at < length text.now) }
{
    text.iter().position(|byte| *byte == wanted)
}

// The name `Space.Name` with its dot at a place.
fn name_at(alloc: Global, pcd: &[u8], dot: usize) -> Result<PcdName, WantOfMemory>
    requires { dot < length pcd.now }
    ensures { IfOk result
        (λ name. name ≡ record { space = take dot pcd.now; name = drop (dot + 1) pcd.now }) }
{
    let space = Text::of(alloc, &pcd[..dot])?;
    let name = Text::of(alloc, &pcd[dot + 1..])?;
    Ok(PcdName { space, name })
}

// The value that the words give a PCD of this name.
fn set_to(alloc: Global, at: &Place, pcd: PcdName, value: &[u8]) -> Result<PcdSet, WantOfMemory>
    ensures { IfOk result
        (λ set. set ≡ record { at = at.now; rank = 1; pcd = pcd; value = value.now }) }
{
    let at = at.copy(alloc)?;
    let value = Text::of(alloc, value)?;
    Ok(PcdSet {
        at,
        rank: 1,
        pcd,
        value,
    })
}

fn set_named(
    alloc: Global,
    at: &Place,
    pcd: &[u8],
    value: &[u8],
) -> Result<Option<PcdSet>, WantOfMemory>
    ensures { IfOk result (λ set. set
        ≡ set_named at.now pcd.now value.now (position (λ byte. byte == 46) pcd.now)) }
{
    let Some(dot) = byte_at(pcd, b'.') else {
        return Ok(None);
    };
    let pcd = name_at(alloc, pcd, dot)?;
    Ok(Some(set_to(alloc, at, pcd, value)?))
}

/// The value that a text `Space.Name=Value` gives a PCD, or none where it has not this form. It
/// stands at the place that is given.
#[tactic(auto, unfolding(crate::specs::Readings::set_in))]
pub fn set_in(alloc: Global, at: &Place, text: &[u8]) -> Result<Option<PcdSet>, WantOfMemory>
    ensures { IfOk result (λ set. set ≡ set_in at.now text.now) }
{
    match byte_at(text, b'=') {
        Some(i) => set_named(alloc, at, &text[..i], &text[i + 1..]),
        None => Ok(None),
    }
}

// Appends the value that a text gives a PCD, where it has the form, and says whether it has.
fn push_set(
    alloc: Global,
    sets: &mut Rows<PcdSet>,
    at: &Place,
    text: &[u8],
) -> Result<bool, WantOfMemory>
    ensures form { IfOk result (λ formed. formed ≡ is_some (set_in at.now text.now)) }
    ensures sets { OnOk result (sets.new ≡ sets.old ++ listed (set_in at.now text.now)) }
{
    match set_in(alloc, at, text)? {
        Some(set) => {
            sets.push(set)?;
            Ok(true)
        }
        None => Ok(false),
    }
}

#[tactic(auto, using(crate::proofs::EachLemmas::none_made, crate::proofs::EachLemmas::one_pushed, crate::proofs::EachLemmas::one_left_out), unfolding(crate::specs::Readings::each_there))]
fn each_set(alloc: Global, at: &Place, texts: &[Text]) -> Result<Option<Rows<PcdSet>>, WantOfMemory>
    ensures { IfOk result (λ sets. sets ≡ each_there (map (set_in at.now) texts.now)) }
{
    let mut sets = Rows::new(alloc);
    let mut left = texts;
    while let [text, rest @ ..] = left {
        if !push_set(alloc, &mut sets, at, text.bytes())? {
            return Ok(None);
        }
        left = rest;
    }
    Ok(Some(sets))
}

/// The values that lines give PCDs, or none where one has not the form.
#[tactic(auto, unfolding(crate::specs::Readings::sets_in))]
pub fn sets_in(alloc: Global, at: &Place, text: &[u8]) -> Result<Option<Rows<PcdSet>>, WantOfMemory>
    ensures { IfOk result (λ sets. sets ≡ sets_in at.now text.now) }
{
    let texts = texts_in(alloc, text)?;
    each_set(alloc, at, texts.items())
}
