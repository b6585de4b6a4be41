//! What the heads and the lines of a flash description say (EDK II FDF specification).
ghost use Rattle.std.specs.Prelude.{◌≡◌, IfOk};

use build_base::{Guid, Path, Place, Rows, Same, Text, WantOfMemory, copied};
use doc_types::arch::Arch;
use doc_types::module_type::ModuleType;
use doc_types::pcd::{PcdName, PcdSet};
use doc_types::volume::{Align, InfLine, Member, SectionPlan};
use std::alloc::Global;

/// The modules for which a rule is. `name` is what the head has behind `Rule`, as it is written.
#[derive(Drop)]
pub struct RuleScope {
    pub arch: Arch,
    pub module_type: ModuleType,
    pub template: Text,
    pub name: Text,
}

/// What a head enters: [Defines], a device, a volume or a rule.
#[derive(Drop)]
pub enum Scope {
    Settings,
    Device(Text),
    Volume(Text),
    Rule(RuleScope),
}

/// A key of a device whose value is a number.
#[derive(Clone, Copy, PartialEq, Eq)]
pub enum DeviceKey {
    BaseAddress,
    Size,
    ErasePolarity,
    BlockSize,
    NumBlocks,
}

/// A key of a device with its number, and the PCD that takes it.
#[derive(Drop)]
pub struct DeviceNumber {
    pub at: Place,
    pub key: DeviceKey,
    pub number: u64,
    pub pcd: Option<PcdName>,
}

/// The line `Offset|Size` of a region.
#[derive(Drop)]
pub struct RegionStart {
    pub at: Place,
    pub offset: u64,
    pub size: u64,
}

/// The PCDs that take a region's address and its size.
#[derive(Drop)]
pub struct RegionPcds {
    pub at: Place,
    pub first: PcdName,
    pub second: Option<PcdName>,
}

/// What fills a region: the volume of a name, a file of the tree, or bytes.
#[derive(Drop)]
pub enum Content {
    Volume(Text),
    Tree(Path),
    Bytes(Text),
}

/// The line that says what fills a region.
#[derive(Drop)]
pub struct RegionContent {
    pub at: Place,
    pub content: Content,
}

/// A key of a volume whose value is a number. An alignment is in bytes.
#[derive(Clone, Copy, PartialEq, Eq)]
pub enum VolumeKey {
    BlockSize,
    NumBlocks,
    FvBaseAddress,
    FvAlignment,
    ErasePolarity,
}

/// What a key of a volume states. `bits` are those of an attribute in the volume's header.
#[derive(Drop)]
pub enum VolumeSetting {
    Number { key: VolumeKey, number: u64 },
    Attribute { bits: u32, on: bool },
    ForceRebase(bool),
    NameGuid(Guid),
    FileSystem { ffs3: bool },
}

/// The first line of an a priori file, of PEI or else of DXE.
#[derive(Drop)]
pub struct AprioriHead {
    pub at: Place,
    pub pei: bool,
}

/// The first line of a file. A rule's file has no name.
#[derive(Drop)]
pub struct FileHead {
    pub at: Place,
    pub file_type: u8,
    pub guid: Option<Guid>,
    pub fixed: bool,
    pub checksum: bool,
    pub align: Align,
}

/// What a section holds: a file of the tree, the volume of a name, or a text, without its quotes.
#[derive(Drop)]
pub enum SectionBody {
    Tree(Path),
    Volume(Text),
    Words(Text),
}

/// A section of a file. `kind` is its type (UEFI PI specification, volume 3, section 2.1.5.1).
#[derive(Drop)]
pub struct SectionLine {
    pub at: Place,
    pub kind: u8,
    pub align: Align,
    pub guid: Option<Guid>,
    pub body: SectionBody,
}

/// What a line says below one head. A member stands in the braces of an a priori file, a section
/// and a whole body in those of a file.
#[derive(Drop)]
pub enum Row {
    Ignored,
    Set(PcdSet),
    Number(DeviceNumber),
    Region(RegionStart),
    Pcds(RegionPcds),
    Content(RegionContent),
    Setting(VolumeSetting),
    Apriori(AprioriHead),
    Member(Member),
    Inf(InfLine),
    File(FileHead),
    Section(SectionLine),
    Whole(Path),
    Closes,
    RuleFile(FileHead),
    RuleSection(SectionPlan),
}

/// What a line came to: heads, with their place and the scopes that they enter, or the rows that it
/// gives, one for each scope.
#[derive(Drop)]
pub enum LineRead {
    Heads { at: Place, scopes: Rows<Scope> },
    Body(Rows<Row>),
}

impl RuleScope {
    fn copy(&self, alloc: Global) -> Result<RuleScope, WantOfMemory>
        ensures { IfOk result (λ r. r ≡ self.now) }
    {
        copied!(RuleScope, self, alloc; template, name; arch, module_type)
    }
}

impl Scope {
    /// The same scope once more.
    pub fn copy(&self, alloc: Global) -> Result<Scope, WantOfMemory>
        ensures { IfOk result (λ s. s ≡ self.now) }
    {
        match self {
            Scope::Settings => Ok(Scope::Settings),
            Scope::Device(name) => Ok(Scope::Device(name.copy(alloc)?)),
            Scope::Volume(name) => Ok(Scope::Volume(name.copy(alloc)?)),
            Scope::Rule(rule) => Ok(Scope::Rule(rule.copy(alloc)?)),
        }
    }
}
