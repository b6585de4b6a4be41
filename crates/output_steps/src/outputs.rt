//! The files that a build gives.
ghost use Rattle.std.specs.Prelude.{◌≡◌, ◌++◌, ◌∷◌, [], map, codes, length, true, ◌<◌, IfOk, OnOk};
ghost use Rattle.std.specs.Char.{to_ascii_uppercase};
ghost use Rattle.build_stages.specs.Gives.{GivesIn};
ghost use Rattle.build_base.specs.First.{with_front};
ghost use Rattle.build_stages.specs.Writing.{given_part};
ghost use Rattle.step_pack.specs.Keys.{key_cmp};
ghost use Rattle.step_pack.specs.declared.key.Key.TheVariants as key;
ghost use Rattle.output_steps.specs.Outputs.{image_output, image_where, volume_outputs, device_outputs, module_folder, file_output, c_output, h_output, code_outputs, depex_outputs, module_outputs, base_of_out, base_in, has_texts, texts_in, has_bytes, bytes_in, named_in, outputs_in, modules_outputs, vpd_outputs, report_output, outputs_of};
ghost use Rattle.step_answers.specs.Volumes.{volume_key};

use crate::wanted::{Wanted, is_marked};
use build_base::{Path, Rows, Same, WantOfMemory};
use build_stages::{Given, Stop};
use build_texts::arch_word;
use doc_types::choice::Module;
use doc_types::flash::{DevicePlan, FlashDoc};
use doc_types::volume::VolumePlan;
use std::alloc::Global;
pub use step_answers::folders::{output_folder, path_below};
use step_answers::stems::stem_of;
use step_answers::volumes::volume_key;
use step_pack::{Key, Out, Output};

fn push_upper(text: &mut Vec<u8>, byte: u8) -> Result<(), WantOfMemory>
    ensures { OnOk result (text.new.items ≡ text.old.items ++ to_ascii_uppercase byte ∷ []) }
{
    match text.push(byte.to_ascii_uppercase()) {
        Ok(()) => Ok(()),
        Err(_) => Err(WantOfMemory),
    }
}

fn push_name(text: &mut Vec<u8>, name: &[u8]) -> Result<(), WantOfMemory>
    ensures { OnOk result (text.new.items ≡ text.old.items ++ map to_ascii_uppercase name.now) }
{
    let mut left = name;
    while let [byte, rest @ ..] = left {
        push_upper(text, *byte)?;
        left = rest;
    }
    Ok(())
}

fn image_name(alloc: Global, name: &[u8], extension: &[u8]) -> Result<Vec<u8>, WantOfMemory>
    ensures { IfOk result (λ v. v.items ≡ codes "FV/" ++ map to_ascii_uppercase name.now
        ++ extension.now) }
{
    let mut text = Vec::from_slice(alloc, b"FV/")?;
    push_name(&mut text, name)?;
    text.extend_from_slice(extension)?;
    Ok(text)
}

fn image_output(
    alloc: Global,
    folder: &Path,
    name: &[u8],
    extension: &[u8],
    from: Key,
) -> Result<Output, Stop<Key>>
    ensures { GivesIn (λ output. output) result
        (image_output folder.now name.now extension.now from) }
{
    let rest = image_name(alloc, name, extension)?;
    let path = path_below(alloc, folder, rest.as_slice())?;
    Ok(Output {
        path,
        from,
        part: 0,
    })
}

// The file of a volume that is wanted.
fn volume_where(
    alloc: Global,
    is_wanted: bool,
    folder: &Path,
    plan: &VolumePlan,
    number: u32,
) -> Result<Rows<Output>, Stop<Key>>
    ensures { GivesIn (λ outputs. outputs) result
        (image_where is_wanted folder.now plan.now.head.name (codes ".Fv")
        (volume_key number plan.now)) }
{
    let mut outputs = Rows::new(alloc);
    if is_wanted {
        let name = plan.head.name.bytes();
        let step = volume_key(number, plan);
        let output = image_output(alloc, folder, name, b".Fv".as_slice(), step)?;
        outputs.push(output)?;
    }
    Ok(outputs)
}

// The file of a device that is wanted.
fn device_where(
    alloc: Global,
    is_wanted: bool,
    folder: &Path,
    plan: &DevicePlan,
    number: u32,
) -> Result<Rows<Output>, Stop<Key>>
    ensures { GivesIn (λ outputs. outputs) result
        (image_where is_wanted folder.now plan.now.name (codes ".fd") (Key.Device number)) }
{
    let mut outputs = Rows::new(alloc);
    if is_wanted {
        let name = plan.name.bytes();
        let output = image_output(alloc, folder, name, b".fd".as_slice(), Key::Device(number))?;
        outputs.push(output)?;
    }
    Ok(outputs)
}

// Appends the files of the volumes that are marked to those of the modules.
#[tactic(auto, unfolding(crate::specs::Outputs::volume_outputs))]
fn push_volumes(
    alloc: Global,
    folder: &Path,
    marks: &[bool],
    plans: &[VolumePlan],
    texts: Rows<Output>,
) -> Result<Rows<Output>, Stop<Key>>
    requires { length plans.now < 65536 }
    ensures { GivesIn (λ outputs. outputs) result
        (with_front texts (volume_outputs folder.now marks.now 0 plans.now)) }
{
    let mut outputs = texts;
    let mut number: u32 = 0;
    let mut left = plans;
    while let [plan, rest @ ..] = left {
        let more = volume_where(alloc, is_marked(marks, number), folder, plan, number)?;
        append(alloc, &mut outputs, more.items())?;
        number += 1;
        left = rest;
    }
    Ok(outputs)
}

// Appends the files of the devices that are marked to those of the volumes.
#[tactic(auto, unfolding(crate::specs::Outputs::device_outputs))]
fn push_devices(
    alloc: Global,
    folder: &Path,
    marks: &[bool],
    plans: &[DevicePlan],
    volumes: Rows<Output>,
) -> Result<Rows<Output>, Stop<Key>>
    requires { length plans.now < 65536 }
    ensures { GivesIn (λ outputs. outputs) result
        (with_front volumes (device_outputs folder.now marks.now 0 plans.now)) }
{
    let mut outputs = volumes;
    let mut number: u32 = 0;
    let mut left = plans;
    while let [plan, rest @ ..] = left {
        let more = device_where(alloc, is_marked(marks, number), folder, plan, number)?;
        append(alloc, &mut outputs, more.items())?;
        number += 1;
        left = rest;
    }
    Ok(outputs)
}

// The folder of a module's files.
#[tactic(auto, unfolding(crate::specs::Outputs::module_folder))]
fn module_folder(alloc: Global, folder: &Path, module: &Module) -> Result<Path, Stop<Key>>
    ensures { GivesIn (λ path. path) result (module_folder folder.now «module».now) }
{
    let below = path_below(alloc, folder, arch_word(module.arch))?;
    path_below(alloc, &below, stem_of(module.inf.bytes()))
}

fn file_output(
    alloc: Global,
    folder: &Path,
    name: &[u8],
    from: Key,
    part: u8,
) -> Result<Output, Stop<Key>>
    ensures { GivesIn (λ output. output) result (file_output folder.now name.now from part) }
{
    let path = path_below(alloc, folder, name)?;
    Ok(Output { path, from, part })
}

fn code_output(
    alloc: Global,
    folder: &Path,
    module: &Module,
    name: &[u8],
    part: u8,
) -> Result<Output, Stop<Key>>
    ensures { GivesIn (λ output. output) result
        (file_output folder.now name.now (key.Code «module».now) part) }
{
    let code = Key::Code(module.copy(alloc)?);
    file_output(alloc, folder, name, code, part)
}

#[tactic(auto, unfolding(crate::specs::Outputs::c_output))]
fn c_output(alloc: Global, folder: &Path, module: &Module) -> Result<Output, Stop<Key>>
    ensures { GivesIn (λ output. output) result (c_output folder.now «module».now) }
{
    code_output(alloc, folder, module, b"DEBUG/AutoGen.c".as_slice(), 0)
}

#[tactic(auto, unfolding(crate::specs::Outputs::h_output))]
fn h_output(alloc: Global, folder: &Path, module: &Module) -> Result<Output, Stop<Key>>
    ensures { GivesIn (λ output. output) result (h_output folder.now «module».now) }
{
    code_output(alloc, folder, module, b"DEBUG/AutoGen.h".as_slice(), 1)
}

fn two_outputs(alloc: Global, first: Output, second: Output) -> Result<Rows<Output>, WantOfMemory>
    ensures { IfOk result (λ outputs. outputs ≡ first ∷ second ∷ []) }
{
    let mut outputs = Rows::new(alloc);
    outputs.push(first)?;
    outputs.push(second)?;
    Ok(outputs)
}

fn both_texts(alloc: Global, folder: &Path, module: &Module) -> Result<Rows<Output>, Stop<Key>>
    ensures { GivesIn (λ outputs. outputs) result (code_outputs folder.now «module».now true) }
{
    let c = c_output(alloc, folder, module)?;
    let h = h_output(alloc, folder, module)?;
    Ok(two_outputs(alloc, c, h)?)
}

// Both texts of a module that has them.
fn code_outputs(
    alloc: Global,
    folder: &Path,
    module: &Module,
    with_texts: bool,
) -> Result<Rows<Output>, Stop<Key>>
    ensures { GivesIn (λ outputs. outputs) result
        (code_outputs folder.now «module».now with_texts) }
{
    if with_texts {
        return both_texts(alloc, folder, module);
    }
    Ok(Rows::new(alloc))
}

fn depex_name(alloc: Global, name: &[u8]) -> Result<Vec<u8>, WantOfMemory>
    ensures { IfOk result (λ v. v.items ≡ codes "OUTPUT/" ++ name.now ++ codes ".depex") }
{
    let mut text = Vec::from_slice(alloc, b"OUTPUT/")?;
    text.extend_from_slice(name)?;
    text.extend_from_slice(b".depex")?;
    Ok(text)
}

fn depex_output(
    alloc: Global,
    folder: &Path,
    module: &Module,
    name: &[u8],
) -> Result<Output, Stop<Key>>
    ensures { GivesIn (λ output. output) result (file_output folder.now
        (codes "OUTPUT/" ++ name.now ++ codes ".depex") (key.Depex «module».now) 0) }
{
    let name = depex_name(alloc, name)?;
    let depex = Key::Depex(module.copy(alloc)?);
    file_output(alloc, folder, name.as_slice(), depex, 0)
}

// Appends an expression that has bytes to the module's texts.
fn push_depex(
    alloc: Global,
    folder: &Path,
    module: &Module,
    name: &[u8],
    with_bytes: bool,
    texts: Rows<Output>,
) -> Result<Rows<Output>, Stop<Key>>
    ensures { GivesIn (λ outputs. outputs) result
        (with_front texts (depex_outputs folder.now «module».now name.now with_bytes)) }
{
    let mut outputs = texts;
    if with_bytes {
        outputs.push(depex_output(alloc, folder, module, name)?)?;
    }
    Ok(outputs)
}

fn module_outputs(
    alloc: Global,
    folder: &Path,
    module: &Module,
    name: &[u8],
    with_texts: bool,
    with_bytes: bool,
) -> Result<Rows<Output>, Stop<Key>>
    ensures { GivesIn (λ outputs. outputs) result
        (module_outputs folder.now «module».now name.now with_texts with_bytes) }
{
    let below = module_folder(alloc, folder, module)?;
    let texts = code_outputs(alloc, &below, module, with_texts)?;
    push_depex(alloc, &below, module, name, with_bytes, texts)
}

fn base_of_out(out: &Out) -> Result<&[u8], Stop<Key>>
    ensures { GivesIn (λ name. name.now) result (base_of_out out.now) }
{
    match out {
        Out::Inf(inf) => Ok(inf.value().base_name.bytes()),
        _ => Err(Stop::ImpossibleAnswer),
    }
}

fn has_texts(out: &Out) -> Result<bool, Stop<Key>>
    ensures { GivesIn (λ has. has) result (has_texts out.now) }
{
    match out {
        Out::Code(texts) => Ok(texts.is_some()),
        _ => Err(Stop::ImpossibleAnswer),
    }
}

fn has_bytes(out: &Out) -> Result<bool, Stop<Key>>
    ensures { GivesIn (λ has. has) result (has_bytes out.now) }
{
    match out {
        Out::Depex(bytes) => Ok(!bytes.bytes().is_empty()),
        _ => Err(Stop::ImpossibleAnswer),
    }
}

fn base_in<'a>(
    alloc: Global,
    given: &Given<'a, Key, Out>,
    module: &Module,
) -> Result<&'a [u8], Stop<Key>>
    ensures { GivesIn (λ name. name.now) result (base_in given.now «module».now) }
{
    let inf = Key::Inf(module.inf.copy(alloc)?);
    base_of_out(given.part(&inf)?)
}

// What the step of a module's texts gave.
fn code_given<'a>(
    alloc: Global,
    given: &Given<'a, Key, Out>,
    module: &Module,
) -> Result<&'a Out, Stop<Key>>
    ensures { GivesIn (λ out. out.now) result (given_part key_cmp given.now (key.Code «module».now)) }
{
    let code = Key::Code(module.copy(alloc)?);
    given.part(&code)
}

fn texts_in(alloc: Global, given: &Given<'_, Key, Out>, module: &Module) -> Result<bool, Stop<Key>>
    ensures { GivesIn (λ has. has) result (texts_in given.now «module».now) }
{
    has_texts(code_given(alloc, given, module)?)
}

// What the step of a module's expression gave.
fn depex_given<'a>(
    alloc: Global,
    given: &Given<'a, Key, Out>,
    module: &Module,
) -> Result<&'a Out, Stop<Key>>
    ensures { GivesIn (λ out. out.now) result
        (given_part key_cmp given.now (key.Depex «module».now)) }
{
    let depex = Key::Depex(module.copy(alloc)?);
    given.part(&depex)
}

fn bytes_in(alloc: Global, given: &Given<'_, Key, Out>, module: &Module) -> Result<bool, Stop<Key>>
    ensures { GivesIn (λ has. has) result (bytes_in given.now «module».now) }
{
    has_bytes(depex_given(alloc, given, module)?)
}

// The BASE_NAME of a module, and whether it has texts.
#[tactic(auto, unfolding(crate::specs::Outputs::named_in))]
fn named_in<'a>(
    alloc: Global,
    given: &Given<'a, Key, Out>,
    module: &Module,
) -> Result<(&'a [u8], bool), Stop<Key>>
    ensures { GivesIn (λ x. (x.0.now, x.1)) result (named_in given.now «module».now) }
{
    let name = base_in(alloc, given, module)?;
    let texts = texts_in(alloc, given, module)?;
    Ok((name, texts))
}

// The files of a module, by its description, its texts and its expression.
#[tactic(auto, unfolding(crate::specs::Outputs::outputs_in))]
fn outputs_in(
    alloc: Global,
    folder: &Path,
    given: &Given<'_, Key, Out>,
    module: &Module,
) -> Result<Rows<Output>, Stop<Key>>
    ensures { GivesIn (λ outputs. outputs) result (outputs_in folder.now given.now «module».now) }
{
    let (name, texts) = named_in(alloc, given, module)?;
    let depex = bytes_in(alloc, given, module)?;
    module_outputs(alloc, folder, module, name, texts, depex)
}

fn append(alloc: Global, outputs: &mut Rows<Output>, more: &[Output]) -> Result<(), WantOfMemory>
    ensures { OnOk result (outputs.new ≡ outputs.old ++ more.now) }
{
    let mut left = more;
    while let [output, rest @ ..] = left {
        outputs.push(output.copy(alloc)?)?;
        left = rest;
    }
    Ok(())
}

// The files of modules.
#[tactic(auto, unfolding(crate::specs::Outputs::modules_outputs))]
fn modules_outputs(
    alloc: Global,
    folder: &Path,
    modules: &[Module],
    given: &Given<'_, Key, Out>,
) -> Result<Rows<Output>, Stop<Key>>
    ensures { GivesIn (λ outputs. outputs) result
        (modules_outputs folder.now given.now modules.now) }
{
    let mut outputs = Rows::new(alloc);
    let mut left = modules;
    while let [module, rest @ ..] = left {
        let more = outputs_in(alloc, folder, given, module)?;
        append(alloc, &mut outputs, more.items())?;
        left = rest;
    }
    Ok(outputs)
}

// Appends the image of vital product data and its map, where there are any.
#[tactic(auto, unfolding(crate::specs::Outputs::vpd_outputs))]
fn push_vpd(
    alloc: Global,
    vpd: bool,
    folder: &Path,
    images: Rows<Output>,
) -> Result<Rows<Output>, Stop<Key>>
    ensures { GivesIn (λ outputs. outputs) result (with_front images (vpd_outputs vpd folder.now)) }
{
    let mut outputs = images;
    if vpd {
        let image = file_output(alloc, folder, b"FV/VPD.bin".as_slice(), Key::Vpd, 0)?;
        let map = file_output(alloc, folder, b"FV/VPD.map".as_slice(), Key::Vpd, 1)?;
        outputs.push(image)?;
        outputs.push(map)?;
    }
    Ok(outputs)
}

fn push_report(
    alloc: Global,
    outputs: &mut Rows<Output>,
    report: &Option<Path>,
) -> Result<(), WantOfMemory>
    ensures { OnOk result (outputs.new ≡ outputs.old ++ report_output report.now) }
{
    match report {
        Some(path) => outputs.push(Output {
            path: path.copy(alloc)?,
            from: Key::Report,
            part: 0,
        }),
        None => Ok(()),
    }
}

/// The files of a build: those of each module, the volumes that are wanted by their numbers, the
/// devices, the image of vital product data and its map, where there are any, and last the report.
#[tactic(auto, unfolding(crate::specs::Outputs::outputs_of))]
pub fn outputs_of(
    alloc: Global,
    vpd: bool,
    folder: &Path,
    modules: &[Module],
    flash: &FlashDoc,
    wanted: &Wanted,
    report: &Option<Path>,
    given: &Given<'_, Key, Out>,
) -> Result<Rows<Output>, Stop<Key>>
    requires volumes { length flash.now.volumes < 65536 }
    requires devices { length flash.now.devices < 65536 }
    ensures { GivesIn (λ outputs. outputs) result
        (outputs_of vpd folder.now modules.now flash.now wanted.now report.now given.now) }
{
    let texts = modules_outputs(alloc, folder, modules, given)?;
    let marks = wanted.volumes.items();
    let volumes = push_volumes(alloc, folder, marks, flash.volumes.items(), texts)?;
    let marks = wanted.devices.items();
    let images = push_devices(alloc, folder, marks, flash.devices.items(), volumes)?;
    let mut outputs = push_vpd(alloc, vpd, folder, images)?;
    push_report(alloc, &mut outputs, report)?;
    Ok(outputs)
}
