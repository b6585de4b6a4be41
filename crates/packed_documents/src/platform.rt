//! Descriptions of platforms.
ghost use Rattle.std.specs.Prelude.{◌≡◌, ◌++◌, OnOk};
ghost use Rattle.packed_values.specs.Encoding.{IsAppended, IsRead, IsUnread};
ghost use Rattle.packed_documents.specs.Platform.{component_first, component_first_encoding, component_encoding, component_of, component_second, component_second_encoding, library_line_encoding, pcd_line_first, pcd_line_first_encoding, pcd_line_encoding, pcd_line_of, pcd_line_second, pcd_line_second_encoding, pcd_line_third, pcd_line_third_encoding, platform_doc_first, platform_doc_first_encoding, platform_doc_encoding, platform_doc_of, platform_doc_second, platform_doc_second_encoding, platform_doc_third, platform_doc_third_encoding, sku_encoding, store_encoding};

use crate::pcds::{PcdLinesEncoding, PcdNameEncoding};
use crate::words::{ArchEncoding, DatumEncoding, KindEncoding, ModuleTypeEncoding};
use build_base::{Guid, Macro, Path, Place, Rows, Text, WantOfMemory};
use doc_types::components::Components;
use doc_types::library_lines::LibraryLines;
use doc_types::platform::{Component, LibraryLine, PcdLine, PlatformDoc, Sku, Store};
use packed_values::fields::{encode_five, encode_three};
use packed_values::plain::encode_byte;
use packed_values::{Encode, Input, decode_fields, encode_fields};
use std::alloc::Global;

/// How a value of `Sku` is encoded.
pub(crate) struct SkuEncoding;

impl Encode for SkuEncoding {
    type Value = Sku;

    ghost encoding = { sku_encoding };

    #[tactic(auto, unfolding(crate::specs::Platform::sku_encoding, packed_values::specs::Parts::pair_encoding))]
    fn encode(value: &Sku, out: &mut Vec<u8>) -> Result<(), WantOfMemory> {
        encode_fields!(value, out; id: u64, name: Text, parent: Text)
    }

    #[tactic(auto, unfolding(crate::specs::Platform::sku_encoding), using(packed_values::proofs::WhereLemmas::unread_by))]
    fn decode(alloc: Global, input: &mut Input) -> Result<Option<Sku>, WantOfMemory> {
        decode_fields!(Sku, alloc, input; id: u64, name: Text, parent: Text)
    }
}

/// How a value of `LibraryLine` is encoded.
pub(crate) struct LibraryLineEncoding;

impl Encode for LibraryLineEncoding {
    type Value = LibraryLine;

    ghost encoding = { library_line_encoding };

    #[tactic(auto, unfolding(crate::specs::Platform::library_line_encoding, packed_values::specs::Parts::pair_encoding))]
    fn encode(value: &LibraryLine, out: &mut Vec<u8>) -> Result<(), WantOfMemory> {
        encode_fields!(value, out; at: Place, arch: ArchEncoding, kind: Option<ModuleTypeEncoding>, class: Text, instance: Path)
    }

    #[tactic(auto, unfolding(crate::specs::Platform::library_line_encoding), using(packed_values::proofs::WhereLemmas::unread_by))]
    fn decode(alloc: Global, input: &mut Input) -> Result<Option<LibraryLine>, WantOfMemory> {
        decode_fields!(LibraryLine, alloc, input; at: Place, arch: ArchEncoding, kind: Option<ModuleTypeEncoding>, class: Text, instance: Path)
    }
}

/// How a value of `Store` is encoded.
pub(crate) struct StoreEncoding;

impl Encode for StoreEncoding {
    type Value = Store;

    ghost encoding = { store_encoding };

    #[tactic(auto, unfolding(crate::specs::Platform::store_encoding, packed_values::specs::Arms::tagged_encoding, packed_values::specs::Arms::arm, packed_values::specs::Arms::last_arm, packed_values::specs::Arms::unit_encoding, packed_values::specs::Plain::byte_encoding, packed_values::specs::Parts::pair_encoding))]
    fn encode(value: &Store, out: &mut Vec<u8>) -> Result<(), WantOfMemory> {
        match value {
            Store::Plain => encode_byte(0, out),
            Store::Hii {
                variable,
                guid,
                offset,
                attributes,
            } => {
                encode_five::<u8, Text, Text, u32, Text>(
                    &1, variable, guid, offset, attributes, out,
                )
            }
            Store::Vpd { offset, rest } => {
                encode_three::<u8, Option<u32>, Rows<Text>>(&2, offset, rest, out)
            }
        }
    }

    #[tactic(auto, unfolding(crate::specs::Platform::store_encoding, packed_values::specs::Arms::tagged_encoding, packed_values::specs::Arms::arm, packed_values::specs::Arms::last_arm, packed_values::specs::Arms::unit_encoding, packed_values::specs::Plain::byte_encoding))]
    fn decode(alloc: Global, input: &mut Input) -> Result<Option<Store>, WantOfMemory> {
        match input.byte() {
            Some(0) => Ok(Some(Store::Plain)),
            Some(1) => match <(Text, (Text, (u32, Text)))>::decode(alloc, input)? {
                None => Ok(None),
                Some((variable, (guid, (offset, attributes)))) => Ok(Some(Store::Hii {
                    variable,
                    guid,
                    offset,
                    attributes,
                })),
            },
            Some(2) => match <(Option<u32>, Rows<Text>)>::decode(alloc, input)? {
                None => Ok(None),
                Some((offset, rest)) => Ok(Some(Store::Vpd { offset, rest })),
            },
            _ => Ok(None),
        }
    }
}

/// How a value of `PcdLine` is encoded.
pub(crate) struct PcdLineEncoding;

type PcdLineFirst = (Place, ArchEncoding, KindEncoding);

type PcdLineSecond = (Text, PcdNameEncoding, Option<Text>);

type PcdLineThird = (Option<DatumEncoding>, Option<u32>, StoreEncoding);

type PcdLineGroups = (PcdLineFirst, PcdLineSecond, PcdLineThird);

// Adds its fields from `at` on.
#[tactic(auto, unfolding(crate::specs::Platform::pcd_line_first_encoding, packed_values::specs::Parts::pair_encoding, packed_values::specs::Parts::triple_encoding))]
fn encode_pcd_line_first(value: &PcdLine, out: &mut Vec<u8>) -> Result<(), WantOfMemory>
    ensures { OnOk result
        (IsAppended pcd_line_first_encoding out.old.items (pcd_line_first value.now)
        out.new.items) }
{
    encode_fields!(value, out; at: Place, arch: ArchEncoding, kind: KindEncoding)
}

// Adds its fields from `sku` on.
#[tactic(auto, unfolding(crate::specs::Platform::pcd_line_second_encoding, packed_values::specs::Parts::pair_encoding, packed_values::specs::Parts::triple_encoding))]
fn encode_pcd_line_second(value: &PcdLine, out: &mut Vec<u8>) -> Result<(), WantOfMemory>
    ensures { OnOk result
        (IsAppended pcd_line_second_encoding out.old.items (pcd_line_second value.now)
        out.new.items) }
{
    encode_fields!(value, out; sku: Text, pcd: PcdNameEncoding, value: Option<Text>)
}

// Adds its fields from `datum` on.
#[tactic(auto, unfolding(crate::specs::Platform::pcd_line_third_encoding, packed_values::specs::Parts::pair_encoding, packed_values::specs::Parts::triple_encoding))]
fn encode_pcd_line_third(value: &PcdLine, out: &mut Vec<u8>) -> Result<(), WantOfMemory>
    ensures { OnOk result
        (IsAppended pcd_line_third_encoding out.old.items (pcd_line_third value.now)
        out.new.items) }
{
    encode_fields!(value, out; datum: Option<DatumEncoding>, max: Option<u32>, store: StoreEncoding)
}

// The record of all its fields.
fn join_pcd_line(groups: <PcdLineGroups as Encode>::Value) -> PcdLine
    ensures { result ≡ pcd_line_of groups }
{
    let (first, second, third) = groups;
    let (at, arch, kind) = first;
    let (sku, pcd, value) = second;
    let (datum, max, store) = third;
    PcdLine {
        at,
        arch,
        kind,
        sku,
        pcd,
        value,
        datum,
        max,
        store,
    }
}

impl Encode for PcdLineEncoding {
    type Value = PcdLine;

    ghost encoding = { pcd_line_encoding };

    #[tactic(auto, unfolding(crate::specs::Platform::pcd_line_encoding, packed_values::specs::Parts::pair_encoding, packed_values::specs::Parts::triple_encoding))]
    fn encode(value: &PcdLine, out: &mut Vec<u8>) -> Result<(), WantOfMemory> {
        encode_pcd_line_first(value, out)?;
        encode_pcd_line_second(value, out)?;
        encode_pcd_line_third(value, out)
    }

    #[tactic(auto, unfolding(crate::specs::Platform::pcd_line_encoding, crate::specs::Platform::pcd_line_first_encoding, crate::specs::Platform::pcd_line_second_encoding, crate::specs::Platform::pcd_line_third_encoding), using(packed_values::proofs::WhereLemmas::unread_by))]
    fn decode(alloc: Global, input: &mut Input) -> Result<Option<PcdLine>, WantOfMemory> {
        match <PcdLineGroups>::decode(alloc, input)? {
            None => Ok(None),
            Some(groups) => Ok(Some(join_pcd_line(groups))),
        }
    }
}

/// How a value of `Component` is encoded.
pub(crate) struct ComponentEncoding;

type ComponentFirst = (Place, ArchEncoding, Path);

type ComponentSecond = (
    Option<Guid>,
    Rows<LibraryLineEncoding>,
    Rows<PcdLineEncoding>,
);

type ComponentGroups = (ComponentFirst, ComponentSecond);

// Adds its fields from `at` on.
#[tactic(auto, unfolding(crate::specs::Platform::component_first_encoding, packed_values::specs::Parts::pair_encoding, packed_values::specs::Parts::triple_encoding))]
fn encode_component_first(value: &Component, out: &mut Vec<u8>) -> Result<(), WantOfMemory>
    ensures { OnOk result
        (IsAppended component_first_encoding out.old.items (component_first value.now)
        out.new.items) }
{
    encode_fields!(value, out; at: Place, arch: ArchEncoding, inf: Path)
}

// Adds its fields from `file_guid` on.
#[tactic(auto, unfolding(crate::specs::Platform::component_second_encoding, packed_values::specs::Parts::pair_encoding, packed_values::specs::Parts::triple_encoding))]
fn encode_component_second(value: &Component, out: &mut Vec<u8>) -> Result<(), WantOfMemory>
    ensures { OnOk result
        (IsAppended component_second_encoding out.old.items (component_second value.now)
        out.new.items) }
{
    encode_fields!(value, out; file_guid: Option<Guid>, libraries: Rows<LibraryLineEncoding>, pcds: Rows<PcdLineEncoding>)
}

// The record of all its fields.
fn join_component(groups: <ComponentGroups as Encode>::Value) -> Component
    ensures { result ≡ component_of groups }
{
    let (first, second) = groups;
    let (at, arch, inf) = first;
    let (file_guid, libraries, pcds) = second;
    Component {
        at,
        arch,
        inf,
        file_guid,
        libraries,
        pcds,
    }
}

impl Encode for ComponentEncoding {
    type Value = Component;

    ghost encoding = { component_encoding };

    #[tactic(auto, unfolding(crate::specs::Platform::component_encoding, packed_values::specs::Parts::pair_encoding))]
    fn encode(value: &Component, out: &mut Vec<u8>) -> Result<(), WantOfMemory> {
        encode_component_first(value, out)?;
        encode_component_second(value, out)
    }

    #[tactic(auto, unfolding(crate::specs::Platform::component_encoding, crate::specs::Platform::component_first_encoding, crate::specs::Platform::component_second_encoding), using(packed_values::proofs::WhereLemmas::unread_by))]
    fn decode(alloc: Global, input: &mut Input) -> Result<Option<Component>, WantOfMemory> {
        match <ComponentGroups>::decode(alloc, input)? {
            None => Ok(None),
            Some(groups) => Ok(Some(join_component(groups))),
        }
    }
}

// Library lines, as rows.
struct LibraryLinesEncoding;

impl Encode for LibraryLinesEncoding {
    ghost use Rattle.packed_values.specs.Parts.{rows_encoding};
    ghost use Rattle.packed_documents.specs.Platform.{library_line_encoding};

    type Value = LibraryLines;

    ghost encoding = { rows_encoding library_line_encoding };

    fn encode(value: &LibraryLines, out: &mut Vec<u8>) -> Result<(), WantOfMemory> {
        Rows::<LibraryLineEncoding>::encode(value.rows(), out)
    }

    fn decode(alloc: Global, input: &mut Input) -> Result<Option<LibraryLines>, WantOfMemory> {
        match Rows::<LibraryLineEncoding>::decode(alloc, input)? {
            None => Ok(None),
            Some(rows) => Ok(Some(LibraryLines::of(alloc, rows)?)),
        }
    }
}

// Components, as rows.
struct ComponentsEncoding;

impl Encode for ComponentsEncoding {
    ghost use Rattle.packed_values.specs.Parts.{rows_encoding};
    ghost use Rattle.packed_documents.specs.Platform.{component_encoding};

    type Value = Components;

    ghost encoding = { rows_encoding component_encoding };

    fn encode(value: &Components, out: &mut Vec<u8>) -> Result<(), WantOfMemory> {
        Rows::<ComponentEncoding>::encode(value.rows(), out)
    }

    fn decode(alloc: Global, input: &mut Input) -> Result<Option<Components>, WantOfMemory> {
        match Rows::<ComponentEncoding>::decode(alloc, input)? {
            None => Ok(None),
            Some(rows) => Ok(Some(Components::of(alloc, rows)?)),
        }
    }
}

/// How a value of `PlatformDoc` is encoded.
pub struct PlatformDocEncoding;

type PlatformDocFirst = (Place, Text, Guid, Path);

type PlatformDocSecond = (Rows<ArchEncoding>, Text, Option<Path>, Rows<SkuEncoding>);

type PlatformDocThird = (
    LibraryLinesEncoding,
    ComponentsEncoding,
    PcdLinesEncoding<PcdLineEncoding>,
    Rows<Macro>,
);

type PlatformDocGroups = (PlatformDocFirst, PlatformDocSecond, PlatformDocThird);

// Adds its fields from `at` on.
#[tactic(auto, unfolding(crate::specs::Platform::platform_doc_first_encoding, packed_values::specs::Parts::pair_encoding, packed_values::specs::Parts::quadruple_encoding))]
fn encode_platform_doc_first(value: &PlatformDoc, out: &mut Vec<u8>) -> Result<(), WantOfMemory>
    ensures { OnOk result
        (IsAppended platform_doc_first_encoding out.old.items (platform_doc_first value.now)
        out.new.items) }
{
    encode_fields!(value, out; at: Place, name: Text, guid: Guid, output: Path)
}

// Adds its fields from `arches` on.
#[tactic(auto, unfolding(crate::specs::Platform::platform_doc_second_encoding, packed_values::specs::Parts::pair_encoding, packed_values::specs::Parts::quadruple_encoding))]
fn encode_platform_doc_second(value: &PlatformDoc, out: &mut Vec<u8>) -> Result<(), WantOfMemory>
    ensures { OnOk result
        (IsAppended platform_doc_second_encoding out.old.items (platform_doc_second value.now)
        out.new.items) }
{
    encode_fields!(value, out; arches: Rows<ArchEncoding>, sku_choice: Text, flash: Option<Path>, skus: Rows<SkuEncoding>)
}

// Adds its fields from `libraries` on.
#[tactic(auto, unfolding(crate::specs::Platform::platform_doc_third_encoding, packed_values::specs::Parts::pair_encoding, packed_values::specs::Parts::quadruple_encoding))]
fn encode_platform_doc_third(value: &PlatformDoc, out: &mut Vec<u8>) -> Result<(), WantOfMemory>
    ensures { OnOk result
        (IsAppended platform_doc_third_encoding out.old.items (platform_doc_third value.now)
        out.new.items) }
{
    encode_fields!(value, out; libraries: LibraryLinesEncoding, components: ComponentsEncoding, pcds: PcdLinesEncoding<PcdLineEncoding>, macros: Rows<Macro>)
}

// The record of all its fields.
fn join_platform_doc(groups: <PlatformDocGroups as Encode>::Value) -> PlatformDoc
    ensures { result ≡ platform_doc_of groups }
{
    let (first, second, third) = groups;
    let (at, name, guid, output) = first;
    let (arches, sku_choice, flash, skus) = second;
    let (libraries, components, pcds, macros) = third;
    PlatformDoc {
        at,
        name,
        guid,
        output,
        arches,
        sku_choice,
        flash,
        skus,
        libraries,
        components,
        pcds,
        macros,
    }
}

impl Encode for PlatformDocEncoding {
    type Value = PlatformDoc;

    ghost encoding = { platform_doc_encoding };

    #[tactic(auto, unfolding(crate::specs::Platform::platform_doc_encoding, packed_values::specs::Parts::pair_encoding, packed_values::specs::Parts::triple_encoding))]
    fn encode(value: &PlatformDoc, out: &mut Vec<u8>) -> Result<(), WantOfMemory> {
        encode_platform_doc_first(value, out)?;
        encode_platform_doc_second(value, out)?;
        encode_platform_doc_third(value, out)
    }

    #[tactic(auto, unfolding(crate::specs::Platform::platform_doc_encoding, crate::specs::Platform::platform_doc_first_encoding, crate::specs::Platform::platform_doc_second_encoding, crate::specs::Platform::platform_doc_third_encoding), using(packed_values::proofs::WhereLemmas::unread_by))]
    fn decode(alloc: Global, input: &mut Input) -> Result<Option<PlatformDoc>, WantOfMemory> {
        match <PlatformDocGroups>::decode(alloc, input)? {
            None => Ok(None),
            Some(groups) => Ok(Some(join_platform_doc(groups))),
        }
    }
}
