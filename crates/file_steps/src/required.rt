//! Which sections require the files that they name.
ghost use Rattle.std.specs.Prelude.{◌≡◌, ℕ, Some, if◌then◌else◌, IfOk, OnOk};
ghost use Rattle.std.specs.Global.{Vec as Bytes};
ghost use Rattle.std.specs.HashMap.{get};
ghost use Rattle.std.specs.Option.{option_copied};
ghost use Rattle.file_steps.specs.ModuleAsks.{is_path_of};
ghost use Rattle.file_steps.specs.Required.{requires_path, requiring, same_key, section_at, IsTable};

use build_base::{Path, WantOfMemory};
use doc_types::volume::{SectionPlan, SectionSource};
use indexmap::IndexMap;
use std::alloc::Global;

fn put_path(
    alloc: Global,
    places: &mut IndexMap<Vec<u8>, usize>,
    path: &Path,
    place: usize,
) -> Result<(), WantOfMemory>
    ensures { (key : Bytes ℕ)
        → OnOk result (get same_key places.new key
        ≡ (if is_path_of key.items path.now then Some place else get same_key places.old key)) }
{
    let key = Vec::from_slice(alloc, path.bytes())?;
    match places.insert(key, place) {
        Ok(_) => Ok(()),
        Err(_) => Err(WantOfMemory),
    }
}

// Puts a section before those of greater places.
fn put_section(
    alloc: Global,
    places: &mut IndexMap<Vec<u8>, usize>,
    section: &SectionPlan,
    place: usize,
) -> Result<(), WantOfMemory>
    ensures { (key : Bytes ℕ)
        → OnOk result (get same_key places.new key
        ≡ (if requires_path key.items section.now then Some place
        else get same_key places.old key)) }
{
    if section.optional {
        return Ok(());
    }
    match &section.source {
        SectionSource::Tree(path) => put_path(alloc, places, path, place),
        SectionSource::Template(_)
        | SectionSource::Volume(_)
        | SectionSource::Words(_)
        | SectionSource::Refused(_) => Ok(()),
    }
}

/// For each path the place of the first section that requires its file.
pub fn places_of(
    alloc: Global,
    sections: &[SectionPlan],
) -> Result<IndexMap<Vec<u8>, usize>, WantOfMemory>
    ensures { IfOk result (IsTable sections.now) }
{
    let mut places = IndexMap::new(alloc);
    let mut place = sections.len();
    while place > 0 {
        place -= 1;
        put_section(alloc, &mut places, &sections[place], place)?;
    }
    Ok(places)
}

fn section_at<'a>(sections: &'a [SectionPlan], place: Option<&usize>) -> Option<&'a SectionPlan>
    ensures { option_copied result ≡ section_at sections.now (option_copied place.entry) }
{
    match place {
        Some(place) => sections.get(*place),
        None => None,
    }
}

/// The first of the sections that requires the file of a path, by the table of their places.
pub(crate) fn requiring<'a>(
    alloc: Global,
    places: &IndexMap<Vec<u8>, usize>,
    sections: &'a [SectionPlan],
    path: &[u8],
) -> Result<Option<&'a SectionPlan>, WantOfMemory>
    requires { IsTable sections.now places.now }
    ensures { IfOk result (λ section. option_copied section ≡ requiring sections.now path.now) }
{
    let key = Vec::from_slice(alloc, path)?;
    Ok(section_at(sections, places.get(&key)))
}
