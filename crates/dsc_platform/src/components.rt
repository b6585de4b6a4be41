//! The components of the lines.
ghost use Rattle.std.specs.Prelude.{◌≡◌, ◌++◌, OnOk, IfOk};
ghost use Rattle.std.specs.List.{flat_map};
ghost use Rattle.doc_reading.specs.Reading.{last_or, last_of};
ghost use Rattle.dsc_platform.specs.Cutting.{is_begun, begins, same_arch, library_for, pcd_for, guid_for, made_component, component_of, built};

use build_base::together::two;
use build_base::{Guid, Rows, Same, WantOfMemory};
use doc_types::arch::{Arch, same_arch};
use doc_types::platform::{Component, LibraryLine, PcdLine};
use dsc_lines::rows::{Begun, Part};
use std::alloc::Global;

fn is_begun(part: &Part) -> bool
    ensures { result ≡ is_begun part.now }
{
    match part {
        Part::Begins(_) => true,
        Part::Library(_) | Part::Tagged(_) | Part::Pcd(_) | Part::FileGuid(_, _) => false,
        Part::Closes => false,
    }
}

/// Whether a line's parts begin components.
pub fn begins(parts: &[Part]) -> bool
    ensures { result ≡ begins parts.now }
{
    parts.iter().any(|part| is_begun(part))
}

fn push_library(
    alloc: Global,
    libraries: &mut Rows<LibraryLine>,
    arch: Arch,
    part: &Part,
) -> Result<(), WantOfMemory>
    ensures { OnOk result (libraries.new ≡ libraries.old ++ library_for arch part.now) }
{
    match part {
        Part::Library(library) => {
            if same_arch(library.arch, arch) {
                libraries.push(library.copy(alloc)?)?;
            }
            Ok(())
        }
        Part::Begins(_) | Part::Tagged(_) | Part::Pcd(_) | Part::FileGuid(_, _) => Ok(()),
        Part::Closes => Ok(()),
    }
}

fn libraries_for(
    alloc: Global,
    arch: Arch,
    rest: &[Part],
) -> Result<Rows<LibraryLine>, WantOfMemory>
    ensures { IfOk result (λ libraries. libraries ≡ flat_map (library_for arch) rest.now) }
{
    let mut libraries = Rows::new(alloc);
    for part in rest {
        push_library(alloc, &mut libraries, arch, part)?;
    }
    Ok(libraries)
}

fn push_pcd(
    alloc: Global,
    pcds: &mut Rows<PcdLine>,
    arch: Arch,
    part: &Part,
) -> Result<(), WantOfMemory>
    ensures { OnOk result (pcds.new ≡ pcds.old ++ pcd_for arch part.now) }
{
    match part {
        Part::Pcd(pcd) => {
            if same_arch(pcd.arch, arch) {
                pcds.push(pcd.copy(alloc)?)?;
            }
            Ok(())
        }
        Part::Begins(_) | Part::Tagged(_) | Part::Library(_) | Part::FileGuid(_, _) => Ok(()),
        Part::Closes => Ok(()),
    }
}

fn pcds_for(alloc: Global, arch: Arch, rest: &[Part]) -> Result<Rows<PcdLine>, WantOfMemory>
    ensures { IfOk result (λ pcds. pcds ≡ flat_map (pcd_for arch) rest.now) }
{
    let mut pcds = Rows::new(alloc);
    for part in rest {
        push_pcd(alloc, &mut pcds, arch, part)?;
    }
    Ok(pcds)
}

fn guid_with(arch: Arch, found: Option<Guid>, part: &Part) -> Option<Guid>
    ensures { result ≡ last_or found (guid_for arch part.now) }
{
    match part {
        Part::FileGuid(own, guid) => {
            if same_arch(*own, arch) {
                return Some(*guid);
            }
            found
        }
        Part::Begins(_) | Part::Tagged(_) | Part::Library(_) | Part::Pcd(_) => found,
        Part::Closes => found,
    }
}

fn guid_among(arch: Arch, rest: &[Part]) -> Option<Guid>
    ensures { result ≡ last_of (flat_map (guid_for arch) rest.now) }
{
    let mut found = None;
    for part in rest {
        found = guid_with(arch, found, part);
    }
    found
}

// The libraries and PCDs of a component.
fn lines_for(
    alloc: Global,
    arch: Arch,
    rest: &[Part],
) -> Result<(Rows<LibraryLine>, Rows<PcdLine>), WantOfMemory>
    ensures { IfOk result
        (λ lines. lines ≡ (flat_map (library_for arch) rest.now, flat_map (pcd_for arch) rest.now)) }
{
    let libraries = libraries_for(alloc, arch, rest)?;
    let pcds = pcds_for(alloc, arch, rest)?;
    Ok((libraries, pcds))
}

fn made_component(alloc: Global, rest: &[Part], begun: &Begun) -> Result<Component, WantOfMemory>
    ensures { IfOk result (λ component. component ≡ made_component rest.now begun.now) }
{
    let file_guid = guid_among(begun.arch, rest);
    let (at, inf) = two(&begun.at, &begun.inf, alloc)?;
    let (libraries, pcds) = lines_for(alloc, begun.arch, rest)?;
    Ok(Component {
        at,
        arch: begun.arch,
        inf,
        file_guid,
        libraries,
        pcds,
    })
}

fn push_component(
    alloc: Global,
    components: &mut Rows<Component>,
    rest: &[Part],
    part: &Part,
) -> Result<(), WantOfMemory>
    ensures { OnOk result (components.new ≡ components.old ++ component_of rest.now part.now) }
{
    match part {
        Part::Begins(begun) => {
            let component = made_component(alloc, rest, begun)?;
            components.push(component)?;
            Ok(())
        }
        Part::Library(_) | Part::Tagged(_) | Part::Pcd(_) | Part::FileGuid(_, _) => Ok(()),
        Part::Closes => Ok(()),
    }
}

/// Adds the components of a block: of the line that begins it, and of the parts below.
pub(crate) fn push_block(
    alloc: Global,
    components: &mut Rows<Component>,
    first: &[Part],
    rest: &[Part],
) -> Result<(), WantOfMemory>
    ensures { OnOk result (components.new ≡ components.old ++ built first.now rest.now) }
{
    for part in first {
        push_component(alloc, components, rest, part)?;
    }
    Ok(())
}
