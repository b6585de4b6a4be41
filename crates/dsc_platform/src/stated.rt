//! What the lines state, components apart.
ghost use Rattle.std.specs.Prelude.{◌≡◌, ◌++◌, ◌∷◌, [], OnOk};
ghost use Rattle.std.specs.List.{flat_map};
ghost use Rattle.dsc_lines.specs.SkuNames.{Placed};
ghost use Rattle.dsc_lines.specs.Standing.{parts_in};
ghost use Rattle.dsc_lines.specs.declared.rows.DscRow.TheVariants.{Key};
ghost use Rattle.dsc_platform.specs.Stating.{nothing, keys_with, with_rows, names_of};

use build_base::{Guid, Path, Rows, Text, WantOfMemory};
use doc_types::arch::Arch;
use doc_types::platform::{LibraryLine, PcdLine};
use dsc_lines::output_folder::OutputFolder;
use dsc_lines::platform_name::PlatformName;
use dsc_lines::rows::{DscRow, KeyValue, Part, SkuLine};
use dsc_lines::sku_names::add_name;
use indexmap::IndexMap;
use std::alloc::Global;

/// The last value of each key that may be absent.
#[derive(Drop)]
pub struct Options {
    pub output: Option<OutputFolder>,
    pub sku_choice: Option<Text>,
    pub flash: Option<Path>,
}

/// The last value of each key.
#[derive(Drop)]
pub struct Keys {
    pub name: Option<PlatformName>,
    pub guid: Option<Guid>,
    pub arches: Option<Rows<Arch>>,
    pub options: Options,
}

/// The keys, and the rows of the other sections in the order of the lines.
#[derive(Drop)]
pub struct Stated {
    pub keys: Keys,
    pub skus: Rows<SkuLine>,
    pub libraries: Rows<LibraryLine>,
    pub pcds: Rows<PcdLine>,
}

impl Keys {
    fn take(&mut self, value: KeyValue)
        ensures { self.new ≡ keys_with self.old (Key value ∷ []) }
    {
        match value {
            KeyValue::Name(name) => self.name = Some(name),
            KeyValue::Guid(guid) => self.guid = Some(guid),
            KeyValue::Arches(arches) => self.arches = Some(arches),
            KeyValue::Output(output) => self.options.output = Some(output),
            KeyValue::SkuChoice(_, choice) => self.options.sku_choice = Some(choice),
            KeyValue::Flash(flash) => self.options.flash = Some(flash),
        }
    }
}

impl Stated {
    /// Nothing yet.
    pub fn new(alloc: Global) -> Stated
        ensures { result ≡ nothing }
    {
        Stated {
            keys: Keys {
                name: None,
                guid: None,
                arches: None,
                options: Options {
                    output: None,
                    sku_choice: None,
                    flash: None,
                },
            },
            skus: Rows::new(alloc),
            libraries: Rows::new(alloc),
            pcds: Rows::new(alloc),
        }
    }
}

fn push_part(parts: &mut Vec<Part>, part: Part) -> Result<(), WantOfMemory>
    ensures { OnOk result (parts.new.items ≡ parts.old.items ++ part ∷ []) }
{
    match parts.push(part) {
        Ok(()) => Ok(()),
        Err(_) => Err(WantOfMemory),
    }
}

fn push_sku(
    alloc: Global,
    skus: &mut Rows<SkuLine>,
    names: &mut IndexMap<Vec<u8>, usize>,
    sku: SkuLine,
) -> Result<(), WantOfMemory>
    ensures skus { OnOk result (skus.new ≡ skus.old ++ sku ∷ []) }
    ensures names { Placed (names_of skus.old) names.old
        → OnOk result (Placed (names_of skus.new) names.new) }
{
    add_name(alloc, names, sku.sku.name.bytes(), skus.items().len())?;
    skus.push(sku)?;
    Ok(())
}

// Takes a row: into what is stated, or among the parts of components.
fn keep_row(
    alloc: Global,
    stated: &mut Stated,
    names: &mut IndexMap<Vec<u8>, usize>,
    parts: &mut Vec<Part>,
    row: DscRow,
) -> Result<(), WantOfMemory>
    ensures stated { OnOk result (stated.new ≡ with_rows stated.old (row ∷ [])) }
    ensures names { Placed (names_of stated.old.skus) names.old
        → OnOk result (Placed (names_of stated.new.skus) names.new) }
    ensures parts { OnOk result (parts.new.items ≡ parts.old.items ++ parts_in row) }
{
    match row {
        DscRow::Key(value) => {
            stated.keys.take(value);
            Ok(())
        }
        DscRow::Sku(sku) => {
            push_sku(alloc, &mut stated.skus, names, sku)?;
            Ok(())
        }
        DscRow::Library(library) => {
            stated.libraries.push(library)?;
            Ok(())
        }
        DscRow::Pcd(pcd) => {
            stated.pcds.push(pcd)?;
            Ok(())
        }
        DscRow::Part(part) => {
            push_part(parts, part)?;
            Ok(())
        }
    }
}

/// Takes the rows of a line.
#[tactic(auto, using(crate::proofs::StatedLemmas::rows_join, crate::proofs::StatedLemmas::rows_none))]
pub(crate) fn keep_rows(
    alloc: Global,
    stated: &mut Stated,
    names: &mut IndexMap<Vec<u8>, usize>,
    parts: &mut Vec<Part>,
    rows: Vec<DscRow>,
) -> Result<(), WantOfMemory>
    ensures stated { OnOk result (stated.new ≡ with_rows stated.old rows.items) }
    ensures names { Placed (names_of stated.old.skus) names.old
        → OnOk result (Placed (names_of stated.new.skus) names.new) }
    ensures parts { OnOk result (parts.new.items
        ≡ parts.old.items ++ flat_map parts_in rows.items) }
{
    for row in rows {
        keep_row(alloc, stated, names, parts, row)?;
    }
    Ok(())
}
