//! The dependency expression of a module.
ghost use Rattle.std.specs.Prelude.{◌≡◌, ◌++◌, ◌∷◌, [], filter, fold, map, IfOk, OnOk};
ghost use Rattle.std.specs.List.{flat_map};
ghost use Rattle.build_stages.specs.Gives.{GivesIn};
ghost use Rattle.text_steps.specs.Depex.{applies, own_type, depex_given};
ghost use Rattle.text_steps.specs.DepexNames.{with_terms, marks_of, is_used, used_at, used_by, used_of, used_names, lean_group, lean_groups};
ghost use Rattle.pcd_resolve.specs.NameFilter.{with_marks};

use build_base::{Permit, Rows, Same, Text, WantOfMemory};
use build_stages::Stop;
use depex_code::compile;
use doc_types::arch::{Arch, covers};
use doc_types::choice::Choice;
use doc_types::depex::{DepexGroup, DepexPart, NamedGuid};
use doc_types::module::{InfDoc, Named};
use doc_types::module_type::ModuleType;
use doc_types::parts::{ModuleParts, Package};
use library_choice::type_covers;
use pcd_resolve::name_filter::{is_kept, mark, no_marks};
use shared_value::Shared;
use std::alloc::Global;
use step_pack::Key;

#[tactic(auto, unfolding(crate::specs::Depex::applies))]
fn applies(arch: Arch, kind: ModuleType, part: &DepexPart) -> bool
    ensures { result ≡ applies arch kind part.now }
{
    covers(part.arch, arch) && type_covers(part.kind, kind)
}

fn push_part(
    alloc: Global,
    parts: &mut Rows<DepexPart>,
    arch: Arch,
    kind: ModuleType,
    part: &DepexPart,
) -> Result<(), WantOfMemory>
    ensures { OnOk result (parts.new ≡ parts.old ++ filter (applies arch kind) (part.now ∷ [])) }
{
    if applies(arch, kind, part) {
        return parts.push(part.copy(alloc)?);
    }
    Ok(())
}

// The sections that apply.
fn parts_of(
    alloc: Global,
    arch: Arch,
    kind: ModuleType,
    sections: &[DepexPart],
) -> Result<Rows<DepexPart>, WantOfMemory>
    ensures { IfOk result (λ parts. parts ≡ filter (applies arch kind) sections.now) }
{
    let mut parts = Rows::new(alloc);
    let mut left = sections;
    while let [part, rest @ ..] = left {
        push_part(alloc, &mut parts, arch, kind, part)?;
        left = rest;
    }
    Ok(parts)
}

fn mark_terms(marks: &mut Vec<bool>, terms: &[Text])
    ensures { marks.new.items ≡ with_marks marks.old.items terms.now }
{
    let mut left = terms;
    while let [term, rest @ ..] = left {
        mark(marks, term.bytes());
        left = rest;
    }
}

fn mark_parts(marks: &mut Vec<bool>, parts: &[DepexPart])
    ensures { marks.new.items ≡ fold with_terms marks.old.items parts.now }
{
    let mut left = parts;
    while let [part, rest @ ..] = left {
        mark_terms(marks, part.terms.items());
        left = rest;
    }
}

// The marks of the names that the terms of these sections may be.
fn marks_of(alloc: Global, parts: &[DepexPart]) -> Result<Vec<bool>, WantOfMemory>
    ensures { IfOk result (λ marks. marks.items ≡ marks_of parts.now) }
{
    let mut marks = no_marks(alloc)?;
    mark_parts(&mut marks, parts);
    Ok(marks)
}

fn is_used(marks: &[bool], arch: Arch, line: &NamedGuid) -> bool
    ensures { result ≡ is_used marks.now arch line.now }
{
    covers(line.arch, arch) && is_kept(marks, line.name.bytes())
}

fn push_name(
    alloc: Global,
    names: &mut Rows<NamedGuid>,
    marks: &[bool],
    arch: Arch,
    line: &NamedGuid,
) -> Result<(), WantOfMemory>
    ensures { OnOk result (names.new ≡ names.old ++ filter (is_used marks.now arch)
        (line.now ∷ [])) }
{
    if is_used(marks, arch, line) {
        return names.push(line.copy(alloc)?);
    }
    Ok(())
}

fn push_names(
    alloc: Global,
    names: &mut Rows<NamedGuid>,
    marks: &[bool],
    arch: Arch,
    lines: &[NamedGuid],
) -> Result<(), WantOfMemory>
    ensures { OnOk result (names.new ≡ names.old ++ filter (is_used marks.now arch) lines.now) }
{
    let mut left = lines;
    while let [line, rest @ ..] = left {
        push_name(alloc, names, marks, arch, line)?;
        left = rest;
    }
    Ok(())
}

fn push_at(
    alloc: Global,
    names: &mut Rows<NamedGuid>,
    marks: &[bool],
    arch: Arch,
    path: &[u8],
    held: &Package,
) -> Result<(), WantOfMemory>
    ensures { OnOk result (names.new ≡ names.old ++ used_at marks.now arch path.now held.now) }
{
    if held.path.bytes() == path {
        push_names(alloc, names, marks, arch, held.doc.value().guids.items())?;
    }
    Ok(())
}

fn push_each(
    alloc: Global,
    names: &mut Rows<NamedGuid>,
    marks: &[bool],
    arch: Arch,
    path: &[u8],
    decs: &[Package],
) -> Result<(), WantOfMemory>
    ensures { OnOk result (names.new
        ≡ names.old ++ flat_map (used_at marks.now arch path.now) decs.now) }
{
    let mut left = decs;
    while let [held, rest @ ..] = left {
        push_at(alloc, names, marks, arch, path, held)?;
        left = rest;
    }
    Ok(())
}

fn push_by(
    alloc: Global,
    names: &mut Rows<NamedGuid>,
    marks: &[bool],
    arch: Arch,
    decs: &[Package],
    named: &Named,
) -> Result<(), WantOfMemory>
    ensures { OnOk result (names.new ≡ names.old ++ used_by marks.now arch decs.now named.now) }
{
    if covers(named.arch, arch) {
        push_each(alloc, names, marks, arch, named.name.bytes(), decs)?;
    }
    Ok(())
}

// The marked names that the packages of an INF file declare.
#[tactic(auto, unfolding(crate::specs::DepexNames::used_of))]
fn used_of(
    alloc: Global,
    marks: &[bool],
    arch: Arch,
    decs: &[Package],
    packages: &[Named],
) -> Result<Rows<NamedGuid>, WantOfMemory>
    ensures { IfOk result (λ names. names ≡ used_of marks.now arch decs.now packages.now) }
{
    let mut names = Rows::new(alloc);
    let mut left = packages;
    while let [named, rest @ ..] = left {
        push_by(alloc, &mut names, marks, arch, decs, named)?;
        left = rest;
    }
    Ok(names)
}

// The names that the terms of these sections of an INF file may be, and few others. All that the
// sections may use would be copied for each module.
fn used_names(
    alloc: Global,
    arch: Arch,
    decs: &[Package],
    inf: &InfDoc,
    parts: &[DepexPart],
) -> Result<Rows<NamedGuid>, WantOfMemory>
    ensures { IfOk result (λ names. names ≡ used_names arch decs.now inf.now parts.now) }
{
    if parts.is_empty() {
        return Ok(Rows::new(alloc));
    }
    let marks = marks_of(alloc, parts)?;
    used_of(alloc, marks.as_slice(), arch, decs, inf.packages.items())
}

#[tactic(auto, unfolding(crate::specs::DepexNames::lean_group))]
fn lean_group(
    alloc: Global,
    arch: Arch,
    kind: ModuleType,
    decs: &[Package],
    inf: &InfDoc,
) -> Result<DepexGroup, WantOfMemory>
    ensures { IfOk result (λ group. group ≡ lean_group arch kind decs.now inf.now) }
{
    let parts = parts_of(alloc, arch, kind, inf.depex.items())?;
    let guids = used_names(alloc, arch, decs, inf, parts.items())?;
    Ok(DepexGroup { parts, guids })
}

fn each_group(
    alloc: Global,
    arch: Arch,
    kind: ModuleType,
    decs: &[Package],
    infs: &[Shared<InfDoc>],
) -> Result<Rows<DepexGroup>, WantOfMemory>
    ensures { IfOk result (λ groups. groups ≡ map (lean_group arch kind decs.now) infs.now) }
{
    let mut groups = Rows::new(alloc);
    let mut left = infs;
    while let [inf, rest @ ..] = left {
        groups.push(lean_group(alloc, arch, kind, decs, inf.value())?)?;
        left = rest;
    }
    Ok(groups)
}

// One group for each INF file.
#[tactic(auto, unfolding(crate::specs::DepexNames::lean_groups))]
fn lean_groups(
    alloc: Global,
    kind: ModuleType,
    parts: &ModuleParts,
) -> Result<Rows<DepexGroup>, WantOfMemory>
    ensures { IfOk result (λ groups. groups ≡ lean_groups kind parts.now) }
{
    each_group(
        alloc,
        parts.module.arch,
        kind,
        parts.decs.items(),
        parts.infs.items(),
    )
}

fn own_type(infs: &[Shared<InfDoc>]) -> Result<ModuleType, Stop<Key>>
    ensures { GivesIn (λ kind. kind) result (own_type infs.now) }
{
    match infs {
        [] => Err(Stop::ImpossibleAnswer),
        [inf, ..] => Ok(inf.value().module_type),
    }
}

/// The bytes of a module's expression, none for a library.
#[tactic(auto, unfolding(crate::specs::Depex::depex_given), using(crate::proofs::DepexNameLemmas::same_bytes))]
pub fn depex_given(
    alloc: Global,
    permit: Permit,
    choice: &Choice,
    parts: &ModuleParts,
) -> Result<Text, Stop<Key>>
    ensures { GivesIn (λ bytes. bytes) result (depex_given choice.now parts.now) }
{
    if choice.library {
        return Ok(Text::of(alloc, b"")?);
    }
    let kind = own_type(parts.infs.items())?;
    let groups = lean_groups(alloc, kind, parts)?;
    Ok(compile(alloc, permit, kind, &groups)?)
}
