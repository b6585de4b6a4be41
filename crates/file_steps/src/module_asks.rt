//! What the steps of modules in volumes ask.
ghost use Rattle.std.specs.Prelude.{◌≡◌, ◌++◌, IfOk, OnOk};
ghost use Rattle.file_steps.specs.ModuleAsks.{line_asks, member_asks, members_asks, is_path_of, source_file, section_files, is_source_of, takes_depex, plan_asks};

use crate::plans::ModulePlan;
use build_base::{Path, Rows, Same, Text, WantOfMemory};
use doc_types::volume::{InfLine, Member, SectionPlan, SectionSource};
use job_fields::fields::{ARCHES, TAG, TARGET};
use std::alloc::Global;
use step_engine::Ask;
use step_pack::Key;

fn push_line(alloc: Global, asks: &mut Rows<Ask<Key>>, line: &InfLine) -> Result<(), WantOfMemory>
    ensures { OnOk result (asks.new ≡ asks.old ++ line_asks line.now) }
{
    asks.push(Ask::Part(Key::Platform))?;
    asks.push(Ask::Part(Key::Inf(line.inf.copy(alloc)?)))?;
    asks.push(Ask::Field(ARCHES))?;
    asks.push(Ask::Field(TARGET))?;
    asks.push(Ask::Field(TAG))
}

/// What the step of an INF statement asks of its module.
pub fn line_asks(alloc: Global, line: &InfLine) -> Result<Rows<Ask<Key>>, WantOfMemory>
    ensures { IfOk result (λ asks. asks ≡ line_asks line.now) }
{
    let mut asks = Rows::new(alloc);
    push_line(alloc, &mut asks, line)?;
    Ok(asks)
}

fn push_member(
    alloc: Global,
    asks: &mut Rows<Ask<Key>>,
    member: &Member,
) -> Result<(), WantOfMemory>
    ensures { OnOk result (asks.new ≡ asks.old ++ member_asks member.now) }
{
    match member {
        Member::Inf(line) => push_line(alloc, asks, line),
        Member::File(_) => Ok(()),
    }
}

/// What the step of an a priori file asks of its members.
pub fn members_asks(alloc: Global, members: &[Member]) -> Result<Rows<Ask<Key>>, WantOfMemory>
    ensures { IfOk result (λ asks. asks ≡ members_asks members.now) }
{
    let mut asks = Rows::new(alloc);
    let mut left = members;
    while let [member, rest @ ..] = left {
        push_member(alloc, &mut asks, member)?;
        left = rest;
    }
    Ok(asks)
}

/// Whether a path is that of the module's own expression.
pub fn is_path_of(depex: &Text, path: &Path) -> bool
    ensures { result ≡ is_path_of depex.now path.now }
{
    path.bytes() == depex.bytes()
}

fn push_source(
    alloc: Global,
    asks: &mut Rows<Ask<Key>>,
    depex: &Text,
    source: &SectionSource,
) -> Result<(), WantOfMemory>
    ensures { OnOk result (asks.new ≡ asks.old ++ source_file depex.now source.now) }
{
    match source {
        SectionSource::Tree(path) => {
            if is_path_of(depex, path) {
                return Ok(());
            }
            asks.push(Ask::File(path.copy(alloc)?))
        }
        SectionSource::Template(_)
        | SectionSource::Volume(_)
        | SectionSource::Words(_)
        | SectionSource::Refused(_) => Ok(()),
    }
}

fn section_files(
    alloc: Global,
    depex: &Text,
    sections: &[SectionPlan],
) -> Result<Rows<Ask<Key>>, WantOfMemory>
    ensures { IfOk result (λ asks. asks ≡ section_files depex.now sections.now) }
{
    let mut asks = Rows::new(alloc);
    let mut left = sections;
    while let [section, rest @ ..] = left {
        push_source(alloc, &mut asks, depex, &section.source)?;
        left = rest;
    }
    Ok(asks)
}

/// Whether a section holds the file of a path.
pub(crate) fn is_source_of(path: &[u8], source: &SectionSource) -> bool
    ensures { result ≡ is_source_of path.now source.now }
{
    match source {
        SectionSource::Tree(other) => other.bytes() == path,
        SectionSource::Template(_)
        | SectionSource::Volume(_)
        | SectionSource::Words(_)
        | SectionSource::Refused(_) => false,
    }
}

/// Whether some section holds the module's own expression.
pub fn takes_depex(depex: &Text, sections: &[SectionPlan]) -> bool
    ensures { result ≡ takes_depex depex.now sections.now }
{
    sections
        .iter()
        .any(|section| is_source_of(depex.bytes(), &section.source))
}

/// What the step of a module's file asks by its plan: the files of the sections, and then the
/// module's expression where a section holds it.
pub fn plan_asks(alloc: Global, plan: &ModulePlan) -> Result<Rows<Ask<Key>>, WantOfMemory>
    ensures { IfOk result (λ asks. asks ≡ plan_asks plan.now) }
{
    let sections = plan.file.sections.items();
    let mut asks = section_files(alloc, &plan.depex, sections)?;
    if takes_depex(&plan.depex, sections) {
        asks.push(Ask::Part(Key::Depex(plan.module.copy(alloc)?)))?;
    }
    Ok(asks)
}
