//! What the steps of a build give.
use crate::key::Key;
use build_base::{Image, Path, Rows, Same, Text, WantOfMemory, all_same, copied};
use doc_types::choice::Choice;
use doc_types::flash::FlashDoc;
use doc_types::image::FileImage;
use doc_types::module::InfDoc;
use doc_types::package::DecDoc;
use doc_types::platform::PlatformDoc;
use doc_types::texts::Texts;
use doc_types::values::Values;
use doc_types::vpd::Vpd;
use shared_value::Shared;
use std::alloc::Global;

/// A file of the build, and the step that gives its bytes. `part` is 1 for the second of two texts,
/// the header or the map, else 0.
#[derive(Drop)]
pub struct Output {
    pub path: Path,
    pub from: Key,
    pub part: u8,
}

/// What a step gives, by the kind of its key. What many steps read is shared. `PlatformPcds` gives
/// `Values` too, and `Based` gives a `Volume`.
#[derive(Drop)]
pub enum Out {
    Dec(Shared<DecDoc>),
    Inf(Shared<InfDoc>),
    Platform(Shared<PlatformDoc>),
    Flash(Shared<FlashDoc>),
    Choice(Choice),
    Values(Shared<Values>),
    Code(Option<Texts>),
    Depex(Text),
    File(FileImage),
    Volume(Image),
    Device(Image),
    Report(Text),
    All(Rows<Output>),
    Vpd(Vpd),
}

impl Same for Output {
    fn copy(&self, alloc: Global) -> Result<Output, WantOfMemory> {
        copied!(Output, self, alloc; path, from; part)
    }

    fn same(&self, other: &Output) -> bool {
        all_same!(self, other; path, from, part)
    }
}

impl Same for Out {
    fn copy(&self, alloc: Global) -> Result<Out, WantOfMemory> {
        match self {
            Out::Dec(document) => Ok(Out::Dec(document.copy(alloc)?)),
            Out::Inf(document) => Ok(Out::Inf(document.copy(alloc)?)),
            Out::Platform(document) => Ok(Out::Platform(document.copy(alloc)?)),
            Out::Flash(document) => Ok(Out::Flash(document.copy(alloc)?)),
            Out::Choice(choice) => Ok(Out::Choice(choice.copy(alloc)?)),
            Out::Values(values) => Ok(Out::Values(values.copy(alloc)?)),
            Out::Code(texts) => Ok(Out::Code(texts.copy(alloc)?)),
            Out::Depex(bytes) => Ok(Out::Depex(bytes.copy(alloc)?)),
            Out::File(file) => Ok(Out::File(file.copy(alloc)?)),
            Out::Volume(image) => Ok(Out::Volume(image.copy(alloc)?)),
            Out::Device(image) => Ok(Out::Device(image.copy(alloc)?)),
            Out::Report(text) => Ok(Out::Report(text.copy(alloc)?)),
            Out::All(outputs) => Ok(Out::All(outputs.copy(alloc)?)),
            Out::Vpd(image) => Ok(Out::Vpd(image.copy(alloc)?)),
        }
    }

    fn same(&self, other: &Out) -> bool {
        match (self, other) {
            (Out::Dec(ours), Out::Dec(others)) => ours.same(others),
            (Out::Inf(ours), Out::Inf(others)) => ours.same(others),
            (Out::Platform(ours), Out::Platform(others)) => ours.same(others),
            (Out::Flash(ours), Out::Flash(others)) => ours.same(others),
            (Out::Choice(ours), Out::Choice(others)) => ours.same(others),
            (Out::Values(ours), Out::Values(others)) => ours.same(others),
            (Out::Code(ours), Out::Code(others)) => ours.same(others),
            (Out::Depex(ours), Out::Depex(others)) => ours.same(others),
            (Out::File(ours), Out::File(others)) => ours.same(others),
            (Out::Volume(ours), Out::Volume(others)) => ours.same(others),
            (Out::Device(ours), Out::Device(others)) => ours.same(others),
            (Out::Report(ours), Out::Report(others)) => ours.same(others),
            (Out::All(ours), Out::All(others)) => ours.same(others),
            (Out::Vpd(ours), Out::Vpd(others)) => ours.same(others),
            _ => false,
        }
    }
}
