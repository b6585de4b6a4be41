//! What the step of a FILE statement asks, once the flash description is known.
ghost use Rattle.std.specs.Prelude.{◌≡◌, ◌++◌, IfOk, OnOk};
ghost use Rattle.step_answers.specs.Volumes.{volume_step};
ghost use Rattle.file_steps.specs.Asks.{source_file, section_files, source_volume, section_volumes, file_asks, source_below, sections_below};

use build_base::{Rows, WantOfMemory};
use doc_types::volume::{FilePlan, SectionPlan, SectionSource, VolumePlan};
use std::alloc::Global;
use step_answers::contents::push_file;
use step_answers::volumes::volume_step;
use step_engine::Ask;
use step_pack::Key;

fn push_source_file(
    alloc: Global,
    asks: &mut Rows<Ask<Key>>,
    source: &SectionSource,
) -> Result<(), WantOfMemory>
    ensures { OnOk result (asks.new ≡ asks.old ++ source_file source.now) }
{
    match source {
        SectionSource::Tree(path) => push_file(alloc, asks, path),
        SectionSource::Template(_)
        | SectionSource::Volume(_)
        | SectionSource::Words(_)
        | SectionSource::Refused(_) => Ok(()),
    }
}

fn push_source_volume(
    asks: &mut Rows<Ask<Key>>,
    volumes: &[VolumePlan],
    source: &SectionSource,
) -> Result<(), WantOfMemory>
    ensures { OnOk result (asks.new ≡ asks.old ++ source_volume volumes.now source.now) }
{
    match source {
        SectionSource::Volume(number) => {
            asks.push(Ask::Part(volume_step(volumes, *number)))?;
            Ok(())
        }
        SectionSource::Tree(_)
        | SectionSource::Template(_)
        | SectionSource::Words(_)
        | SectionSource::Refused(_) => Ok(()),
    }
}

fn push_files(
    alloc: Global,
    asks: &mut Rows<Ask<Key>>,
    sections: &[SectionPlan],
) -> Result<(), WantOfMemory>
    ensures { OnOk result (asks.new ≡ asks.old ++ section_files sections.now) }
{
    let mut left = sections;
    while let [section, rest @ ..] = left {
        push_source_file(alloc, asks, &section.source)?;
        left = rest;
    }
    Ok(())
}

fn push_volumes(
    asks: &mut Rows<Ask<Key>>,
    volumes: &[VolumePlan],
    sections: &[SectionPlan],
) -> Result<(), WantOfMemory>
    ensures { OnOk result (asks.new ≡ asks.old ++ section_volumes volumes.now sections.now) }
{
    let mut left = sections;
    while let [section, rest @ ..] = left {
        push_source_volume(asks, volumes, &section.source)?;
        left = rest;
    }
    Ok(())
}

/// What the step of a FILE statement asks: its files, and then the volumes of its sections.
pub fn file_asks(
    alloc: Global,
    volumes: &[VolumePlan],
    plan: &FilePlan,
) -> Result<Rows<Ask<Key>>, WantOfMemory>
    ensures { IfOk result (λ asks. asks ≡ file_asks volumes.now plan.now) }
{
    let mut asks = Rows::new(alloc);
    match &plan.whole {
        Some(path) => push_file(alloc, &mut asks, path)?,
        None => {
            push_files(alloc, &mut asks, plan.sections.items())?;
            push_volumes(&mut asks, volumes, plan.sections.items())?;
        }
    }
    Ok(asks)
}

fn source_below(volume: u32, source: &SectionSource) -> bool
    ensures { result ≡ source_below volume source.now }
{
    match source {
        SectionSource::Volume(number) => *number < volume,
        SectionSource::Tree(_)
        | SectionSource::Template(_)
        | SectionSource::Words(_)
        | SectionSource::Refused(_) => true,
    }
}

/// Whether the sections of a file of a volume name volumes below it alone.
pub fn sections_below(volume: u32, sections: &[SectionPlan]) -> bool
    ensures { result ≡ sections_below volume sections.now }
{
    sections
        .iter()
        .all(|section| source_below(volume, &section.source))
}
