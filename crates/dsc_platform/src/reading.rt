//! Reading a platform's lines.
ghost use Rattle.std.specs.Prelude.{◌≡◌, ◌++◌, Some, OnOk, IfOk, codes, unwrap_or, map};
ghost use Rattle.std.specs.List.{list_any};
ghost use Rattle.build_base.specs.Answer.{Answers, Checks, Finds};
ghost use Rattle.build_base.specs.FaultCodes.{DSC_MISSING_KEY};
ghost use Rattle.build_base.specs.Path.{IsPathField};
ghost use Rattle.doc_reading.specs.Missing.{missing_key};
ghost use Rattle.dsc_platform.specs.Cutting.{built};
ghost use Rattle.dsc_platform.specs.Shape.{HasShape};
ghost use Rattle.dsc_lines.specs.SkuLines.{is_default};
ghost use Rattle.dsc_lines.specs.SkuNames.{Placed};
ghost use Rattle.dsc_platform.specs.Stating.{names_of};
ghost use Rattle.dsc_platform.specs.Making.{needed_values, needed_keys, fields_of, joined_platform};
ghost use Rattle.dsc_platform.specs.Platform.{front_of, skus_of, with_required, whole_fault, document_of, platform_of};

use crate::components::push_block;
use crate::format::DscFormat;
use crate::named_platform::NamedPlatform;
use crate::repeats::check_repeats;
use crate::sku_uses::{SkuUse, check_uses};
use crate::sku_walks::check_loops;
use crate::stated::{Keys, Options, Stated};
use build_base::fault_codes::DSC_MISSING_KEY;
use build_base::together::two;
use build_base::{
    Guid, Lines, Macro, Path, Permit, Place, Refusal, Rows, Same, Text, WantOfMemory,
};
use doc_reading::missing::refuse_missing;
use doc_reading::{DocumentFormat, read_whole};
use doc_types::arch::Arch;
use doc_types::components::Components;
use doc_types::library_lines::LibraryLines;
use doc_types::pcd_lines::PcdLines;
use doc_types::platform::{Component, LibraryLine, PcdLine, PlatformDoc, Sku};
use dsc_lines::output_folder::OutputFolder;
use dsc_lines::platform_name::PlatformName;
use dsc_lines::rows::SkuLine;
use dsc_lines::sku_line::is_default;
use indexmap::IndexMap;
use std::alloc::Global;

fn output_of(
    alloc: Global,
    stated: Option<OutputFolder>,
    name: &PlatformName,
) -> Result<Path, WantOfMemory>
    ensures path { IfOk result (λ p. p ≡ unwrap_or stated (codes "Build/" ++ name.now)) }
    ensures form { IfOk result (λ p. IsPathField p) }
{
    match stated {
        Some(folder) => Ok(folder.into_path()),
        None => name.folder(alloc),
    }
}

fn sku_choice_of(alloc: Global, stated: Option<Text>) -> Result<Text, WantOfMemory>
    ensures { IfOk result (λ t. t ≡ unwrap_or stated (codes "DEFAULT")) }
{
    match stated {
        Some(text) => Ok(text),
        None => Text::of(alloc, b"DEFAULT".as_slice()),
    }
}

fn is_default_line(line: &SkuLine) -> bool
    ensures { result ≡ is_default line.now.sku.name }
{
    is_default(line.sku.name.bytes())
}

fn has_default(lines: &[SkuLine]) -> bool
    ensures { result ≡ list_any (λ line. is_default line.sku.name) lines.now }
{
    lines.iter().any(|line| is_default_line(line))
}

fn push_skus(alloc: Global, skus: &mut Rows<Sku>, lines: &[SkuLine]) -> Result<(), WantOfMemory>
    ensures { OnOk result (skus.new ≡ skus.old ++ map (λ line. line.sku) lines.now) }
{
    for line in lines {
        skus.push(line.sku.copy(alloc)?)?;
    }
    Ok(())
}

fn front_skus(alloc: Global, lines: &[SkuLine]) -> Result<Rows<Sku>, WantOfMemory>
    ensures { IfOk result (λ skus. skus ≡ front_of lines.now) }
{
    let mut skus = Rows::new(alloc);
    if !has_default(lines) {
        skus.push(Sku {
            id: 0,
            name: Text::of(alloc, b"DEFAULT".as_slice())?,
            parent: Text::of(alloc, b"".as_slice())?,
        })?;
    }
    Ok(skus)
}

fn skus_of(alloc: Global, lines: &[SkuLine]) -> Result<Rows<Sku>, WantOfMemory>
    ensures { IfOk result (λ skus. skus ≡ skus_of lines.now) }
{
    let mut skus = front_skus(alloc, lines)?;
    push_skus(alloc, &mut skus, lines)?;
    Ok(skus)
}

fn no_name(alloc: Global, root: &Path) -> Refusal
    ensures { Finds result (Some (missing_key DSC_MISSING_KEY root.now (codes "PLATFORM_NAME"))) }
{
    refuse_missing(alloc, DSC_MISSING_KEY, root, b"PLATFORM_NAME".as_slice())
}

fn no_guid(alloc: Global, root: &Path) -> Refusal
    ensures { Finds result (Some (missing_key DSC_MISSING_KEY root.now (codes "PLATFORM_GUID"))) }
{
    refuse_missing(alloc, DSC_MISSING_KEY, root, b"PLATFORM_GUID".as_slice())
}

fn no_arches(alloc: Global, root: &Path) -> Refusal
    ensures { Finds result (Some (missing_key DSC_MISSING_KEY root.now
        (codes "SUPPORTED_ARCHITECTURES"))) }
{
    let key = b"SUPPORTED_ARCHITECTURES".as_slice();
    refuse_missing(alloc, DSC_MISSING_KEY, root, key)
}

// The keys that have to be stated, and those that may be absent.
#[derive(Drop)]
struct Needed {
    name: PlatformName,
    guid: Guid,
    arches: Rows<Arch>,
    options: Options,
}

// The keys' values, where each required one is stated.
fn needed_values(
    alloc: Global,
    root: &Path,
    name: Option<PlatformName>,
    guid: Option<Guid>,
    arches: Option<Rows<Arch>>,
) -> Result<(PlatformName, Guid, Rows<Arch>), Refusal>
    ensures { Answers result (needed_values root.now name guid arches) }
{
    let Some(name) = name else {
        return Err(no_name(alloc, root));
    };
    let Some(guid) = guid else {
        return Err(no_guid(alloc, root));
    };
    match arches {
        Some(arches) => Ok((name, guid, arches)),
        None => Err(no_arches(alloc, root)),
    }
}

fn needed_keys(alloc: Global, root: &Path, keys: Keys) -> Result<Needed, Refusal>
    ensures { Answers result (needed_keys root.now keys) }
{
    let Keys {
        name,
        guid,
        arches,
        options,
    } = keys;
    let (name, guid, arches) = needed_values(alloc, root, name, guid, arches)?;
    Ok(Needed {
        name,
        guid,
        arches,
        options,
    })
}

// The fields that the keys give a platform.
#[derive(Drop)]
struct Fields {
    name: PlatformName,
    guid: Guid,
    arches: Rows<Arch>,
    output: Path,
    sku_choice: Text,
    flash: Option<Path>,
}

fn fields_of(alloc: Global, needed: Needed) -> Result<Fields, WantOfMemory>
    ensures fields { IfOk result (λ f. f ≡ fields_of needed) }
    ensures form { IfOk result (λ f. IsPathField f.output) }
{
    let Needed {
        name,
        guid,
        arches,
        options,
    } = needed;
    let Options {
        output,
        sku_choice,
        flash,
    } = options;
    let output = output_of(alloc, output, &name)?;
    let sku_choice = sku_choice_of(alloc, sku_choice)?;
    Ok(Fields {
        name,
        guid,
        arches,
        output,
        sku_choice,
        flash,
    })
}

// What the lines state below their heads, and where the names of SKUs stand.
#[derive(Drop)]
struct Listed {
    skus: Rows<SkuLine>,
    libraries: Rows<LibraryLine>,
    pcds: Rows<PcdLine>,
    components: Rows<Component>,
    names: IndexMap<Vec<u8>, usize>,
    uses: Rows<SkuUse>,
}

fn check_listed(alloc: Global, listed: &Listed) -> Result<(), Refusal>
    ensures { Placed (names_of listed.now.skus) listed.now.names
        → Checks result (whole_fault listed.now.skus listed.now.components listed.now.uses) }
{
    check_repeats(alloc, listed.components.items())?;
    check_uses(alloc, &listed.names, listed.uses.items())?;
    check_loops(alloc, &listed.names, listed.skus.items())?;
    Ok(())
}

// What is made of the lines besides.
#[derive(Drop)]
struct Added {
    root: Path,
    macros: Rows<Macro>,
    skus: Rows<Sku>,
}

fn added_of(alloc: Global, lines: &Lines, skus: &[SkuLine]) -> Result<Added, WantOfMemory>
    ensures root { IfOk result (λ a. a.root ≡ lines.now.root) }
    ensures macros { IfOk result (λ a. a.macros ≡ lines.now.macros) }
    ensures skus { IfOk result (λ a. a.skus ≡ skus_of skus.now) }
{
    let (root, macros) = two(&lines.root, &lines.macros, alloc)?;
    let skus = skus_of(alloc, skus)?;
    Ok(Added { root, macros, skus })
}

// The lines below the heads, with the tables by which they are found.
#[derive(Drop)]
struct Tabled {
    libraries: LibraryLines,
    components: Components,
    pcds: PcdLines<PcdLine>,
}

fn tables_of(alloc: Global, listed: Listed) -> Result<Tabled, WantOfMemory>
    ensures libraries { IfOk result (λ t. t.libraries ≡ listed.libraries) }
    ensures components { IfOk result (λ t. t.components ≡ listed.components) }
    ensures pcds { IfOk result (λ t. t.pcds ≡ listed.pcds) }
{
    let libraries = LibraryLines::of(alloc, listed.libraries)?;
    let components = Components::of(alloc, listed.components)?;
    let pcds = PcdLines::of(alloc, listed.pcds)?;
    Ok(Tabled {
        libraries,
        components,
        pcds,
    })
}

fn joined_platform(fields: Fields, tabled: Tabled, added: Added) -> NamedPlatform
    requires { IsPathField fields.output }
    ensures { result ≡ joined_platform fields tabled added }
{
    let Fields {
        name,
        guid,
        arches,
        output,
        sku_choice,
        flash,
    } = fields;
    let Added { root, macros, skus } = added;
    NamedPlatform {
        document: PlatformDoc {
            at: Place {
                path: root,
                line: 0,
            },
            output,
            name: name.into_text(),
            guid,
            arches,
            sku_choice,
            flash,
            skus,
            libraries: tabled.libraries,
            components: tabled.components,
            pcds: tabled.pcds,
            macros,
        },
    }
}

fn make_document(
    alloc: Global,
    lines: &Lines,
    needed: Needed,
    listed: Listed,
) -> Result<NamedPlatform, WantOfMemory>
    ensures { IfOk result
        (λ d. d ≡ with_required lines.now needed.options listed.skus listed.libraries listed.pcds
        listed.components needed.name needed.guid needed.arches) }
{
    let fields = fields_of(alloc, needed)?;
    let added = added_of(alloc, lines, listed.skus.items())?;
    let tabled = tables_of(alloc, listed)?;
    Ok(joined_platform(fields, tabled, added))
}

// What the lines came to, when the last block of components is made.
#[derive(Drop)]
struct Ended {
    stated: Stated,
    names: IndexMap<Vec<u8>, usize>,
    uses: Rows<SkuUse>,
    components: Rows<Component>,
}

fn end_blocks(format: DscFormat) -> Result<Ended, WantOfMemory>
    ensures stated { IfOk result (λ e. e.stated ≡ format.stated) }
    ensures names { IfOk result (λ e. e.names ≡ format.names) }
    ensures uses { IfOk result (λ e. e.uses ≡ format.uses) }
    ensures components { IfOk result
        (λ e. e.components ≡ format.done ++ built format.first.items format.rest.items) }
{
    let DscFormat {
        alloc,
        stated,
        names,
        uses,
        mut done,
        first,
        rest,
        ..
    } = format;
    push_block(alloc, &mut done, first.as_slice(), rest.as_slice())?;
    Ok(Ended {
        stated,
        names,
        uses,
        components: done,
    })
}

// The document, where each required key is stated and nothing is at fault in the whole.
#[tactic(auto, using(crate::proofs::RequiredLemmas::key_refused))]
fn document(alloc: Global, lines: &Lines, ended: Ended) -> Result<NamedPlatform, Refusal>
    ensures { Placed (names_of ended.stated.skus) ended.names
        → Answers result (document_of lines.now ended.stated ended.components ended.uses) }
{
    let Ended {
        stated,
        names,
        uses,
        components,
    } = ended;
    let Stated {
        keys,
        skus,
        libraries,
        pcds,
    } = stated;
    let listed = Listed {
        skus,
        libraries,
        pcds,
        components,
        names,
        uses,
    };
    let needed = needed_keys(alloc, &lines.root, keys)?;
    if let Err(refusal) = check_listed(alloc, &listed) {
        return Err(refusal);
    }
    let document = make_document(alloc, lines, needed, listed)?;
    Ok(document)
}

impl DocumentFormat for DscFormat {
    ghost use Rattle.dsc_platform.specs.Platform.{platform_made};

    type Made = NamedPlatform;

    ghost made = { platform_made };

    fn finish(self, lines: &Lines) -> Result<NamedPlatform, Refusal> {
        let alloc = self.alloc;
        let ended = end_blocks(self)?;
        document(alloc, lines, ended)
    }
}

/// The platform that these lines describe, or the first fault: of the first line that has one, else
/// of the whole, at its root's line 0 where a required key isn't stated.
#[tactic(auto, unfolding(crate::specs::Platform::platform_of), using(crate::proofs::ShapeOfLines::skus_end))]
pub fn read_platform(alloc: Global, permit: Permit, lines: &Lines) -> Result<PlatformDoc, Refusal>
    ensures value { Answers result (platform_of lines.now) }
    ensures shape { IfOk result (λ d. HasShape d) }
{
    let _spent = permit;
    let platform = read_whole(alloc, DscFormat::new(alloc), lines)?;
    Ok(platform.into_document())
}
