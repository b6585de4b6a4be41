//! The names that are filled in when a rule is used, and the folder of a module's outputs.
ghost use Rattle.std.specs.Prelude.{◌≡◌, ◌∷◌, ◌++◌, [], codes, IfOk, OnOk};
ghost use Rattle.build_texts.specs.Guids.{guid_text};
ghost use Rattle.file_steps.specs.Names.{module_folder, module_guid, named, NAMED_GUID, INF_OUTPUT, MODULE_NAME, INF_VERSION, BUILD_NUMBER, rule_names, fill_names, own_depex};

use build_base::{Guid, Macro, Rows, Same, Text, WantOfMemory};
use build_texts::arch_word;
use doc_types::choice::Module;
use doc_types::module::InfDoc;
use doc_types::platform::PlatformDoc;
use macro_expressions::macros::{Scope, Undefined, replace};
use macro_expressions::table::{ListedMacros, MacroTable};
use std::alloc::Global;
use step_answers::settings::stated_guid;
use step_answers::stems::stem_of;
use uuid::Uuid;

/// The folder of a module's outputs.
#[tactic(auto, unfolding(crate::specs::Names::module_folder))]
pub fn module_folder(alloc: Global, folder: &Text, module: &Module) -> Result<Text, WantOfMemory>
    ensures { IfOk result (λ below. below ≡ module_folder folder.now «module».now) }
{
    let mut below = Vec::from_slice(alloc, folder.bytes())?;
    below.extend_from_slice(b"/")?;
    below.extend_from_slice(arch_word(module.arch))?;
    below.extend_from_slice(b"/")?;
    below.extend_from_slice(stem_of(module.inf.bytes()))?;
    below.extend_from_slice(b"/OUTPUT")?;
    Ok(Text::from_vec(below))
}

/// The GUID of a module: that of its component, else that of its INF file.
#[tactic(auto, unfolding(crate::specs::Names::module_guid))]
pub(crate) fn module_guid(platform: &PlatformDoc, module: &Module, inf: &InfDoc) -> Guid
    ensures { result ≡ module_guid platform.now «module».now inf.now }
{
    match stated_guid(platform, module) {
        Some(guid) => guid,
        None => inf.file_guid,
    }
}

#[tactic(auto, unfolding(build_texts::specs::Guids::guid_text))]
fn put_guid(out: &mut Vec<u8>, guid: &Guid) -> Result<(), WantOfMemory>
    ensures { OnOk result (out.new.items ≡ out.old.items ++ guid_text guid.now) }
{
    let mut buffer = [0; 36];
    let id = Uuid::from_bytes_le(guid.0).hyphenated();
    out.extend_from_slice(id.encode_lower(&mut buffer).as_bytes())?;
    Ok(())
}

fn guid_text(alloc: Global, guid: &Guid) -> Result<Text, WantOfMemory>
    ensures { IfOk result (λ text. text ≡ guid_text guid.now) }
{
    let mut text = Vec::new(alloc);
    put_guid(&mut text, guid)?;
    Ok(Text::from_vec(text))
}

fn push_name(names: &mut Rows<Macro>, name: Text, value: Text) -> Result<(), WantOfMemory>
    ensures { OnOk result (names.new ≡ names.old ++ named name value ∷ []) }
{
    names.push(Macro { name, value })
}

#[tactic(auto, unfolding(crate::specs::Names::NAMED_GUID))]
fn named_guid(alloc: Global) -> Result<Text, WantOfMemory>
    ensures { IfOk result (λ name. name ≡ NAMED_GUID) }
{
    Text::of(alloc, b"NAMED_GUID".as_slice())
}

fn push_guid(alloc: Global, names: &mut Rows<Macro>, guid: &Guid) -> Result<(), WantOfMemory>
    ensures { OnOk result (names.new ≡ names.old ++ named NAMED_GUID (guid_text guid.now) ∷ []) }
{
    let name = named_guid(alloc)?;
    let value = guid_text(alloc, guid)?;
    push_name(names, name, value)
}

#[tactic(auto, unfolding(crate::specs::Names::INF_OUTPUT))]
fn inf_output(alloc: Global) -> Result<Text, WantOfMemory>
    ensures { IfOk result (λ name. name ≡ INF_OUTPUT) }
{
    Text::of(alloc, b"INF_OUTPUT".as_slice())
}

fn push_folder(alloc: Global, names: &mut Rows<Macro>, folder: &Text) -> Result<(), WantOfMemory>
    ensures { OnOk result (names.new ≡ names.old ++ named INF_OUTPUT folder.now ∷ []) }
{
    let name = inf_output(alloc)?;
    let value = folder.copy(alloc)?;
    push_name(names, name, value)
}

#[tactic(auto, unfolding(crate::specs::Names::MODULE_NAME))]
fn module_name(alloc: Global) -> Result<Text, WantOfMemory>
    ensures { IfOk result (λ name. name ≡ MODULE_NAME) }
{
    Text::of(alloc, b"MODULE_NAME".as_slice())
}

fn push_base_name(alloc: Global, names: &mut Rows<Macro>, inf: &InfDoc) -> Result<(), WantOfMemory>
    ensures { OnOk result (names.new ≡ names.old ++ named MODULE_NAME inf.now.base_name ∷ []) }
{
    let name = module_name(alloc)?;
    let value = inf.base_name.copy(alloc)?;
    push_name(names, name, value)
}

#[tactic(auto, unfolding(crate::specs::Names::INF_VERSION))]
fn inf_version(alloc: Global) -> Result<Text, WantOfMemory>
    ensures { IfOk result (λ name. name ≡ INF_VERSION) }
{
    Text::of(alloc, b"INF_VERSION".as_slice())
}

fn push_version(alloc: Global, names: &mut Rows<Macro>, inf: &InfDoc) -> Result<(), WantOfMemory>
    ensures { OnOk result (names.new ≡ names.old ++ named INF_VERSION inf.now.version ∷ []) }
{
    let name = inf_version(alloc)?;
    let value = inf.version.copy(alloc)?;
    push_name(names, name, value)
}

fn zero(alloc: Global) -> Result<Text, WantOfMemory>
    ensures { IfOk result (λ text. text ≡ codes "0") }
{
    Text::of(alloc, b"0".as_slice())
}

#[tactic(auto, unfolding(crate::specs::Names::BUILD_NUMBER))]
fn build_number(alloc: Global) -> Result<Text, WantOfMemory>
    ensures { IfOk result (λ name. name ≡ BUILD_NUMBER) }
{
    Text::of(alloc, b"BUILD_NUMBER".as_slice())
}

fn push_build_number(alloc: Global, names: &mut Rows<Macro>) -> Result<(), WantOfMemory>
    ensures { OnOk result (names.new ≡ names.old ++ named BUILD_NUMBER (codes "0") ∷ []) }
{
    let name = build_number(alloc)?;
    let value = zero(alloc)?;
    push_name(names, name, value)
}

/// The five names, of a module of this GUID whose outputs stand in this folder.
#[tactic(auto, unfolding(crate::specs::Names::rule_names))]
pub fn rule_names(
    alloc: Global,
    guid: &Guid,
    folder: &Text,
    inf: &InfDoc,
) -> Result<Rows<Macro>, WantOfMemory>
    ensures { IfOk result (λ names. names ≡ rule_names guid.now folder.now inf.now) }
{
    let mut names = Rows::new(alloc);
    push_guid(alloc, &mut names, guid)?;
    push_folder(alloc, &mut names, folder)?;
    push_base_name(alloc, &mut names, inf)?;
    push_version(alloc, &mut names, inf)?;
    push_build_number(alloc, &mut names)?;
    Ok(names)
}

/// A text with the names filled in, once, from left to right.
pub(crate) fn fill_names(alloc: Global, names: &[Macro], text: &[u8]) -> Result<Text, WantOfMemory>
    ensures { IfOk result (λ t. t ≡ fill_names names.now text.now) }
{
    let (files, fixed) = (MacroTable::new(alloc), ListedMacros::of(alloc, names)?);
    let scope = Scope {
        files: &files,
        fixed: &fixed,
    };
    Ok(Text::from_vec(replace(alloc, Undefined::Kept, scope, text)?))
}

/// The path of the module's own expression.
#[tactic(auto, unfolding(crate::specs::Names::own_depex))]
pub(crate) fn own_depex(alloc: Global, folder: &Text, inf: &InfDoc) -> Result<Text, WantOfMemory>
    ensures { IfOk result (λ path. path ≡ own_depex folder.now inf.now) }
{
    let mut path = Vec::from_slice(alloc, folder.bytes())?;
    path.extend_from_slice(b"/")?;
    path.extend_from_slice(inf.base_name.bytes())?;
    path.extend_from_slice(b".depex")?;
    Ok(Text::from_vec(path))
}
