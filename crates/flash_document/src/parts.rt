//! What the sections of a flash description state.
ghost use Rattle.std.specs.Prelude.{◌≡◌, ◌++◌, IfOk, OnOk};
ghost use Rattle.flash_document.specs.Sets.{section_lines};
ghost use Rattle.flash_document.specs.Parts.{stated_of, stated_from, stated_below, all_stated};

use crate::device::device_of;
use crate::rule::rule_of_lines;
use crate::sets::section_lines;
use crate::stated::FdfSection;
use crate::volume::volume_of;
use build_base::{Place, Rows, WantOfMemory};
use fdf_words::rows::{LineRead, Scope};
use std::alloc::Global;

fn stated_of(
    alloc: Global,
    at: &Place,
    scope: &Scope,
    k: usize,
    lines: &[LineRead],
) -> Result<FdfSection, WantOfMemory>
    ensures { IfOk result (λ s. s ≡ stated_of at.now scope.now k lines.now) }
{
    match scope {
        Scope::Settings => Ok(FdfSection::Settings),
        Scope::Device(name) => Ok(FdfSection::Device(device_of(alloc, at, name, k, lines)?)),
        Scope::Volume(name) => Ok(FdfSection::Volume(volume_of(alloc, at, name, k, lines)?)),
        Scope::Rule(rule) => rule_of_lines(alloc, at, rule, k, lines),
    }
}

fn push_stated(
    alloc: Global,
    parts: &mut Rows<FdfSection>,
    at: &Place,
    scopes: &[Scope],
    lines: &[LineRead],
) -> Result<(), WantOfMemory>
    ensures { OnOk result (parts.new ≡ parts.old ++ stated_from at.now 0 scopes.now lines.now) }
{
    for (k, scope) in scopes.iter().enumerate() {
        parts.push(stated_of(alloc, at, scope, k, lines)?)?;
    }
    Ok(())
}

// Only at heads are the lines below looked through for the next ones.
fn push_below(
    alloc: Global,
    parts: &mut Rows<FdfSection>,
    line: &LineRead,
    below: &[LineRead],
) -> Result<(), WantOfMemory>
    ensures { OnOk result (parts.new ≡ parts.old
        ++ stated_below line.now (section_lines below.now)) }
{
    match line {
        LineRead::Heads { at, scopes } => {
            push_stated(alloc, parts, at, scopes.items(), section_lines(below))
        }
        LineRead::Body(_) => Ok(()),
    }
}

/// What each section states below each of its heads, in file order.
pub(crate) fn all_stated(
    alloc: Global,
    lines: &[LineRead],
) -> Result<Rows<FdfSection>, WantOfMemory>
    ensures { IfOk result (λ parts. parts ≡ all_stated lines.now) }
{
    let mut parts = Rows::new(alloc);
    let mut left = lines;
    while let [line, rest @ ..] = left {
        push_below(alloc, &mut parts, line, rest)?;
        left = rest;
    }
    Ok(parts)
}
