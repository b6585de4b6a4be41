//! The images that a field of a job wants.
ghost use Rattle.std.specs.Prelude.{◌≡◌, ◌++◌, ◌∷◌, [], codes, IfOk, OnOk};
ghost use Rattle.std.specs.List.{filter_map, list_all};
ghost use Rattle.std.specs.Option.{option_map};
ghost use Rattle.job_fields.specs.Readings.{behind, is_image_line, images_of, images_in};

use crate::job::Images;
use crate::readings::texts_in;
use build_base::{Rows, Text, WantOfMemory};
use std::alloc::Global;

fn behind<'a>(kind: &[u8], line: &'a [u8]) -> Option<&'a [u8]>
    ensures { option_map (λ name. name.now) result ≡ behind kind.now line.now }
{
    if line.starts_with(kind) {
        Some(&line[kind.len()..])
    } else {
        None
    }
}

// Appends what stands behind a kind at the head of a line.
fn push_behind(
    alloc: Global,
    names: &mut Rows<Text>,
    kind: &[u8],
    line: &[u8],
) -> Result<(), WantOfMemory>
    ensures { OnOk result (names.new ≡ names.old ++ filter_map (behind kind.now) (line.now ∷ [])) }
{
    match behind(kind, line) {
        Some(name) => names.push(Text::of(alloc, name)?),
        None => Ok(()),
    }
}

fn names_behind(alloc: Global, kind: &[u8], lines: &[Text]) -> Result<Rows<Text>, WantOfMemory>
    ensures { IfOk result (λ names. names ≡ filter_map (behind kind.now) lines.now) }
{
    let mut names = Rows::new(alloc);
    let mut left = lines;
    while let [line, rest @ ..] = left {
        push_behind(alloc, &mut names, kind, line.bytes())?;
        left = rest;
    }
    Ok(names)
}

fn is_image_line(line: &[u8]) -> bool
    ensures { result ≡ is_image_line line.now }
{
    behind(b"fd ".as_slice(), line).is_some() || behind(b"fv ".as_slice(), line).is_some()
}

fn are_image_lines(lines: &[Text]) -> bool
    ensures { result ≡ list_all is_image_line lines.now }
{
    lines.iter().all(|line| is_image_line(line.bytes()))
}

fn images_named(alloc: Global, lines: &[Text]) -> Result<Images, WantOfMemory>
    ensures devices { IfOk result
        (λ images. images.devices ≡ filter_map (behind (codes "fd ")) lines.now) }
    ensures volumes { IfOk result
        (λ images. images.volumes ≡ filter_map (behind (codes "fv ")) lines.now) }
{
    let devices = names_behind(alloc, b"fd ".as_slice(), lines)?;
    let volumes = names_behind(alloc, b"fv ".as_slice(), lines)?;
    Ok(Images { devices, volumes })
}

#[tactic(auto, unfolding(crate::specs::Readings::images_of))]
fn images_of(alloc: Global, lines: &[Text]) -> Result<Option<Images>, WantOfMemory>
    ensures { IfOk result (λ images. images ≡ images_of lines.now) }
{
    if !are_image_lines(lines) {
        return Ok(None);
    }
    Ok(Some(images_named(alloc, lines)?))
}

/// The names in lines `fd NAME` as devices, and those in lines `fv NAME` as volumes, or none where a
/// line has neither form.
#[tactic(auto, unfolding(crate::specs::Readings::images_in))]
pub fn images_in(alloc: Global, text: &[u8]) -> Result<Option<Images>, WantOfMemory>
    ensures { IfOk result (λ images. images ≡ images_in text.now) }
{
    let lines = texts_in(alloc, text)?;
    images_of(alloc, lines.items())
}
