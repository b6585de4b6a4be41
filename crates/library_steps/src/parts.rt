//! The descriptions of modules and their libraries, and the packages that they name.
ghost use Rattle.library_steps.specs.Parts.{dec_of_out, dec_in, held_package, package_in, infs_from, packages_from, linked_module, linked_in, linked_from, package_paths, described_in, described_from, parts_in, parts_from};
ghost use Rattle.std.specs.Prelude.{◌≡◌, ◌++◌, ◌∷◌, [], Ok, IfOk, OnOk};
ghost use Rattle.build_base.specs.Path.{path_field};
ghost use Rattle.std.specs.List.{filter_map};
ghost use Rattle.build_stages.specs.Gives.{GivesIn};
ghost use Rattle.build_stages.specs.Known.{shown};
ghost use Rattle.pcd_resolve.specs.Listing.{packages_in};

use build_base::path::path_field;
use build_base::together::three;
use build_base::{Path, Rows, Same, Text, WantOfMemory};
use build_stages::{Given, Stop};
use doc_types::arch::Arch;
use doc_types::choice::{Choice, Module};
use doc_types::module::InfDoc;
use doc_types::package::DecDoc;
use doc_types::parts::{ModuleParts, Package};
use pcd_resolve::packages::packages_in;
use shared_value::Shared;
use std::alloc::Global;
use step_answers::readers::{choice_in, inf_in};
use step_pack::{Key, Out};

/// A module, its INF file, and those of its instances in first-found order.
#[derive(Drop)]
pub struct Linked {
    pub module: Module,
    pub paths: Rows<Path>,
}

/// A module, its description and those of its instances, and the packages that they name.
#[derive(Drop)]
pub struct Described {
    pub module: Module,
    pub infs: Rows<Shared<InfDoc>>,
    pub packages: Rows<Path>,
}

fn dec_of_out(out: &Out) -> Result<&Shared<DecDoc>, Stop<Key>>
    ensures { GivesIn (λ dec. dec.now) result (dec_of_out out.now) }
{
    match out {
        Out::Dec(dec) => Ok(dec),
        _ => Err(Stop::ImpossibleAnswer),
    }
}

fn held_package(alloc: Global, path: &Path, dec: &Shared<DecDoc>) -> Result<Package, WantOfMemory>
    ensures { IfOk result (λ held. held_package path.now dec.now ≡ Ok held) }
{
    Ok(Package {
        path: path.copy(alloc)?,
        doc: dec.copy(alloc)?,
    })
}

fn shared_dec<'a>(
    alloc: Global,
    given: &Given<'a, Key, Out>,
    path: &Path,
) -> Result<&'a Shared<DecDoc>, Stop<Key>>
    ensures { GivesIn (λ dec. dec.now) result (dec_in given.now path.now) }
{
    let key = Key::Dec(path.copy(alloc)?);
    dec_of_out(given.part(&key)?)
}

// The package of a path, by the answers of a stage.
#[tactic(auto, unfolding(crate::specs::Parts::package_in))]
fn package_in(alloc: Global, given: &Given<'_, Key, Out>, path: &Path) -> Result<Package, Stop<Key>>
    ensures { GivesIn (λ held. held) result (package_in given.now path.now) }
{
    let dec = shared_dec(alloc, given, path)?;
    Ok(held_package(alloc, path, dec)?)
}

/// The descriptions of some paths, in their order.
pub fn infs_from(
    alloc: Global,
    given: &Given<'_, Key, Out>,
    paths: &[Path],
) -> Result<Rows<Shared<InfDoc>>, Stop<Key>>
    ensures { GivesIn (λ infs. infs) result (infs_from given.now paths.now) }
{
    let mut all = Rows::new(alloc);
    let mut left = paths;
    while let [path, rest @ ..] = left {
        all.push(inf_in(alloc, given, path)?)?;
        left = rest;
    }
    Ok(all)
}

fn packages_from(
    alloc: Global,
    given: &Given<'_, Key, Out>,
    paths: &[Path],
) -> Result<Rows<Package>, Stop<Key>>
    ensures { GivesIn (λ packages. packages) result (packages_from given.now paths.now) }
{
    let mut all = Rows::new(alloc);
    let mut left = paths;
    while let [path, rest @ ..] = left {
        all.push(package_in(alloc, given, path)?)?;
        left = rest;
    }
    Ok(all)
}

fn push_paths(alloc: Global, out: &mut Rows<Path>, paths: &[Path]) -> Result<(), WantOfMemory>
    ensures { OnOk result (out.new ≡ out.old ++ paths.now) }
{
    let mut left = paths;
    while let [path, rest @ ..] = left {
        out.push(path.copy(alloc)?)?;
        left = rest;
    }
    Ok(())
}

// The paths of a module's own description and of its instances'.
fn linked_paths(alloc: Global, module: &Module, choice: &Choice) -> Result<Rows<Path>, WantOfMemory>
    ensures { IfOk result (λ paths. paths ≡ «module».now.inf ∷ choice.now.instances) }
{
    let mut paths = Rows::new(alloc);
    paths.push(module.inf.copy(alloc)?)?;
    push_paths(alloc, &mut paths, choice.instances.items())?;
    Ok(paths)
}

/// A module with the paths of its own description and of its instances'.
pub fn linked_module(
    alloc: Global,
    module: &Module,
    choice: &Choice,
) -> Result<Linked, WantOfMemory>
    ensures { IfOk result (λ held. held ≡ linked_module «module».now choice.now) }
{
    let module_copy = module.copy(alloc)?;
    let paths = linked_paths(alloc, module, choice)?;
    Ok(Linked {
        module: module_copy,
        paths,
    })
}

#[tactic(auto, unfolding(crate::specs::Parts::linked_in))]
fn linked_in(
    alloc: Global,
    given: &Given<'_, Key, Out>,
    module: &Module,
) -> Result<Linked, Stop<Key>>
    ensures { GivesIn (λ held. held) result (linked_in given.now «module».now) }
{
    let choice = choice_in(alloc, given, module)?;
    Ok(linked_module(alloc, module, choice)?)
}

/// The same of each module, by the answers of a stage.
pub fn linked_from(
    alloc: Global,
    given: &Given<'_, Key, Out>,
    modules: &[Module],
) -> Result<Rows<Linked>, Stop<Key>>
    ensures { GivesIn (λ x. x) result (linked_from given.now modules.now) }
{
    let mut all = Rows::new(alloc);
    let mut left = modules;
    while let [module, rest @ ..] = left {
        all.push(linked_in(alloc, given, module)?)?;
        left = rest;
    }
    Ok(all)
}

// The same texts, owned.
pub(crate) fn each_text(alloc: Global, texts: &[&[u8]]) -> Result<Rows<Text>, WantOfMemory>
    ensures { IfOk result (λ rows. rows ≡ shown texts.now) }
{
    let mut rows = Rows::new(alloc);
    for text in texts {
        rows.push(Text::of(alloc, text)?)?;
    }
    Ok(rows)
}

fn named_packages(
    alloc: Global,
    arch: Arch,
    infs: &[Shared<InfDoc>],
) -> Result<Rows<Text>, WantOfMemory>
    ensures { IfOk result (λ names. names ≡ packages_in arch infs.now) }
{
    let names = packages_in(alloc, arch, infs)?;
    each_text(alloc, names.as_slice())
}

// Appends the path that a name is.
fn push_path(alloc: Global, paths: &mut Rows<Path>, name: &Text) -> Result<(), WantOfMemory>
    ensures { OnOk result (paths.new ≡ paths.old ++ filter_map path_field (name.now ∷ [])) }
{
    match path_field(alloc, name.bytes())? {
        Some(path) => paths.push(path),
        None => Ok(()),
    }
}

fn each_path(alloc: Global, names: &[Text]) -> Result<Rows<Path>, WantOfMemory>
    ensures { IfOk result (λ paths. paths ≡ filter_map path_field names.now) }
{
    let mut paths = Rows::new(alloc);
    let mut left = names;
    while let [name, rest @ ..] = left {
        push_path(alloc, &mut paths, name)?;
        left = rest;
    }
    Ok(paths)
}

// The packages that some descriptions name for an architecture, each at its first place.
#[tactic(auto, unfolding(crate::specs::Parts::package_paths))]
fn package_paths(
    alloc: Global,
    arch: Arch,
    infs: &[Shared<InfDoc>],
) -> Result<Rows<Path>, WantOfMemory>
    ensures { IfOk result (λ paths. paths ≡ package_paths arch infs.now) }
{
    let names = named_packages(alloc, arch, infs)?;
    each_path(alloc, names.items())
}

/// A module with its descriptions.
#[tactic(auto, unfolding(crate::specs::Parts::described_in))]
pub fn described_in(
    alloc: Global,
    given: &Given<'_, Key, Out>,
    held: &Linked,
) -> Result<Described, Stop<Key>>
    ensures { GivesIn (λ described. described) result (described_in given.now held.now) }
{
    let infs = infs_from(alloc, given, held.paths.items())?;
    let packages = package_paths(alloc, held.module.arch, infs.items())?;
    Ok(Described {
        module: held.module.copy(alloc)?,
        infs,
        packages,
    })
}

/// The same of each module.
pub fn described_from(
    alloc: Global,
    given: &Given<'_, Key, Out>,
    modules: &[Linked],
) -> Result<Rows<Described>, Stop<Key>>
    ensures { GivesIn (λ x. x) result (described_from given.now modules.now) }
{
    let mut all = Rows::new(alloc);
    let mut left = modules;
    while let [held, rest @ ..] = left {
        all.push(described_in(alloc, given, held)?)?;
        left = rest;
    }
    Ok(all)
}

/// What values come from: a module with its descriptions and its packages.
#[tactic(auto, unfolding(crate::specs::Parts::parts_in))]
pub fn parts_in(
    alloc: Global,
    given: &Given<'_, Key, Out>,
    held: Described,
) -> Result<ModuleParts, Stop<Key>>
    ensures { GivesIn (λ parts. parts) result (parts_in given.now held) }
{
    let Described {
        module,
        infs,
        packages,
    } = held;
    let decs = packages_from(alloc, given, packages.items())?;
    Ok(ModuleParts { module, infs, decs })
}

fn described_again(alloc: Global, held: &Described) -> Result<Described, WantOfMemory>
    ensures { IfOk result (λ again. again ≡ held.now) }
{
    let (module, infs, packages) = three(&held.module, &held.infs, &held.packages, alloc)?;
    Ok(Described {
        module,
        infs,
        packages,
    })
}

// The same of one that is lent.
fn lent_parts(
    alloc: Global,
    given: &Given<'_, Key, Out>,
    held: &Described,
) -> Result<ModuleParts, Stop<Key>>
    ensures { GivesIn (λ parts. parts) result (parts_in given.now held.now) }
{
    let again = described_again(alloc, held)?;
    parts_in(alloc, given, again)
}

/// The same of each module.
pub fn parts_from(
    alloc: Global,
    given: &Given<'_, Key, Out>,
    modules: &[Described],
) -> Result<Rows<ModuleParts>, Stop<Key>>
    ensures { GivesIn (λ x. x) result (parts_from given.now modules.now) }
{
    let mut all = Rows::new(alloc);
    let mut left = modules;
    while let [held, rest @ ..] = left {
        all.push(lent_parts(alloc, given, held)?)?;
        left = rest;
    }
    Ok(all)
}
