//! The ten fields of a job.
ghost use Rattle.std.specs.Prelude.{◌≡◌, ◌++◌, ◌∷◌, [], if◌then◌else◌, IfOk, OnOk, map};
ghost use Rattle.std.specs.List.{join_with_byte};
ghost use Rattle.job_fields.specs.Fields.{or_empty, image_lines, job_fields};

use crate::job::{Images, Job, Names, Settings};
use build_base::{Path, Rows, Text, WantOfMemory};
use std::alloc::Global;

/// The platform's file.
pub const PLATFORM: u8 = 0;

/// The architectures, which line feeds join.
pub const ARCHES: u8 = 1;

/// The target, or nothing.
pub const TARGET: u8 = 2;

/// The tool chain's tag, or nothing.
pub const TAG: u8 = 3;

/// The SKU, or nothing.
pub const SKU: u8 = 4;

/// The macros `NAME` or `NAME=VALUE`, which line feeds join.
pub const DEFINES: u8 = 5;

/// The values `Space.Name=Value` of PCDs, which line feeds join.
pub const PCDS: u8 = 6;

/// The flash description's file, or nothing.
pub const FLASH: u8 = 7;

/// The images that are wanted, in lines `fd NAME` and `fv NAME`.
pub const IMAGES: u8 = 8;

/// The report's file, or nothing.
pub const REPORT: u8 = 9;

// Appends a text, after a line feed where it isn't the first.
fn push_text(out: &mut Vec<u8>, first: bool, text: &[u8]) -> Result<(), WantOfMemory>
    ensures { OnOk result (out.new.items ≡ out.old.items
        ++ (if first then text.now else 10 ∷ text.now)) }
{
    if !first {
        out.extend_from_slice(b"\n")?;
    }
    out.extend_from_slice(text)?;
    Ok(())
}

#[tactic(auto, using(crate::proofs::JoinLemmas::joined_more))]
fn join_lines(alloc: Global, texts: &[Text]) -> Result<Text, WantOfMemory>
    ensures { IfOk result (λ t. t ≡ join_with_byte 10 texts.now) }
{
    let mut out = Vec::new(alloc);
    for (i, text) in texts.iter().enumerate() {
        push_text(&mut out, i == 0, text.bytes())?;
    }
    Ok(Text::from_vec(out))
}

fn line_of(alloc: Global, kind: &[u8], name: &[u8]) -> Result<Text, WantOfMemory>
    ensures { IfOk result (λ t. t ≡ kind.now ++ name.now) }
{
    let mut line = Vec::from_slice(alloc, kind)?;
    line.extend_from_slice(name)?;
    Ok(Text::from_vec(line))
}

fn push_lines(
    alloc: Global,
    lines: &mut Rows<Text>,
    kind: &[u8],
    names: &[Text],
) -> Result<(), WantOfMemory>
    ensures { OnOk result (lines.new ≡ lines.old ++ map (λ name. kind.now ++ name) names.now) }
{
    let mut left = names;
    while let [name, rest @ ..] = left {
        lines.push(line_of(alloc, kind, name.bytes())?)?;
        left = rest;
    }
    Ok(())
}

#[tactic(auto, unfolding(crate::specs::Fields::image_lines))]
fn image_lines(alloc: Global, images: &Images) -> Result<Rows<Text>, WantOfMemory>
    ensures { IfOk result (λ lines. lines ≡ image_lines images.now) }
{
    let mut lines = Rows::new(alloc);
    push_lines(alloc, &mut lines, b"fd ".as_slice(), images.devices.items())?;
    push_lines(alloc, &mut lines, b"fv ".as_slice(), images.volumes.items())?;
    Ok(lines)
}

fn push(alloc: Global, fields: &mut Rows<Text>, text: &[u8]) -> Result<(), WantOfMemory>
    ensures { OnOk result (fields.new ≡ fields.old ++ text.now ∷ []) }
{
    fields.push(Text::of(alloc, text)?)
}

fn push_joined(alloc: Global, fields: &mut Rows<Text>, texts: &[Text]) -> Result<(), WantOfMemory>
    ensures { OnOk result (fields.new ≡ fields.old ++ join_with_byte 10 texts.now ∷ []) }
{
    fields.push(join_lines(alloc, texts)?)
}

fn push_name(
    alloc: Global,
    fields: &mut Rows<Text>,
    name: &Option<Text>,
) -> Result<(), WantOfMemory>
    ensures { OnOk result (fields.new ≡ fields.old ++ or_empty name.now ∷ []) }
{
    match name {
        Some(text) => push(alloc, fields, text.bytes()),
        None => push(alloc, fields, b"".as_slice()),
    }
}

fn push_path(
    alloc: Global,
    fields: &mut Rows<Text>,
    path: &Option<Path>,
) -> Result<(), WantOfMemory>
    ensures { OnOk result (fields.new ≡ fields.old ++ or_empty path.now ∷ []) }
{
    match path {
        Some(path) => push(alloc, fields, path.bytes()),
        None => push(alloc, fields, b"".as_slice()),
    }
}

fn push_names(alloc: Global, fields: &mut Rows<Text>, names: &Names) -> Result<(), WantOfMemory>
    ensures { OnOk result (fields.new ≡ fields.old ++ or_empty names.now.target
        ∷ or_empty names.now.tag ∷ or_empty names.now.sku ∷ []) }
{
    push_name(alloc, fields, &names.target)?;
    push_name(alloc, fields, &names.tag)?;
    push_name(alloc, fields, &names.sku)
}

fn push_settings(
    alloc: Global,
    fields: &mut Rows<Text>,
    settings: &Settings,
) -> Result<(), WantOfMemory>
    ensures { OnOk result (fields.new ≡ fields.old ++ join_with_byte 10 settings.now.defines
        ∷ join_with_byte 10 settings.now.pcds ∷ []) }
{
    push_joined(alloc, fields, settings.defines.items())?;
    push_joined(alloc, fields, settings.pcds.items())
}

fn push_images(alloc: Global, fields: &mut Rows<Text>, images: &Images) -> Result<(), WantOfMemory>
    ensures { OnOk result (fields.new ≡ fields.old ++ join_with_byte 10 (image_lines images.now)
        ∷ []) }
{
    let lines = image_lines(alloc, images)?;
    push_joined(alloc, fields, lines.items())
}

/// The ten fields of a job.
#[tactic(auto, unfolding(crate::specs::Fields::job_fields))]
pub fn job_fields(alloc: Global, job: &Job) -> Result<Rows<Text>, WantOfMemory>
    ensures { IfOk result (λ fields. fields ≡ job_fields job.now) }
{
    let mut fields = Rows::new(alloc);
    push(alloc, &mut fields, job.files.platform.bytes())?;
    push_joined(alloc, &mut fields, job.arches.items())?;
    push_names(alloc, &mut fields, &job.names)?;
    push_settings(alloc, &mut fields, &job.settings)?;
    push_path(alloc, &mut fields, &job.files.flash)?;
    push_images(alloc, &mut fields, &job.images)?;
    push_path(alloc, &mut fields, &job.files.report)?;
    Ok(fields)
}
