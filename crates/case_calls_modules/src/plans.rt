//! What a text asks of the values of a platform: `platform DSC`, `package DEC`, `module ARCH INF
//! INF ..`, `arch NAME`, `sku NAME` for a SKU of the build's words, and `set RANK PATH LINE PCD
//! VALUE`.

ghost use Rattle.std.specs.Prelude.{◌≡◌};

use crate::words::{arch_of, module_named, number_of, other_form, pcd_of, text_of_word};
use build_base::{Path, Rows, Same, Text};
use case_calls_documents::{module_at, package_of};
use case_calls_texts::{path_of, place_of};
use case_player::{Output, Stop, Wrong, first_word, text_of};
use doc_types::arch::Arch;
use doc_types::asks::PlatformAsk;
use doc_types::flash::FlashDoc;
use doc_types::module::InfDoc;
use doc_types::parts::{ModuleParts, Package};
use doc_types::pcd::PcdSet;
use doc_types::platform::PlatformDoc;
use shared_value::Shared;
use std::alloc::Global;

pub struct Plan {
    pub platform: Option<Path>,
    pub commands: Rows<PcdSet>,
    pub sets: Rows<PcdSet>,
    pub skus: Rows<Text>,
    pub arches: Rows<Arch>,
    pub packages: Rows<Package>,
    pub modules: Rows<ModuleParts>,
}

// A written `Drop` is one call for whoever lets the value go. A derived one is spelled out there.
impl Drop for Plan {
    fn drop(self) {
        let Plan {
            platform: _platform,
            commands: _commands,
            sets: _sets,
            skus: _skus,
            arches: _arches,
            packages: _packages,
            modules: _modules,
        } = self;
    }
}

impl Plan {
    /// The sets of the flash description, which the plan then has no more.
    pub(crate) fn take_sets(&mut self, alloc: Global) -> Rows<PcdSet> {
        std::mem::replace(&mut self.sets, Rows::new(alloc))
    }

    /// What the plan asks of these documents.
    pub fn into_ask(self, platform: Shared<PlatformDoc>, flash: Shared<FlashDoc>) -> PlatformAsk
        ensures { result.platform ≡ platform }
    {
        let Plan {
            platform: _path,
            commands,
            sets: _sets,
            skus,
            arches,
            packages: _packages,
            modules,
        } = self;
        PlatformAsk {
            platform,
            flash,
            commands,
            skus,
            arches,
            modules,
        }
    }
}

fn empty_plan(alloc: Global) -> Plan {
    Plan {
        platform: None,
        commands: Rows::new(alloc),
        sets: Rows::new(alloc),
        skus: Rows::new(alloc),
        arches: Rows::new(alloc),
        packages: Rows::new(alloc),
        modules: Rows::new(alloc),
    }
}

fn package_read(alloc: Global, files: &[Output], word: &str) -> Result<Package, Stop> {
    let path = path_of(alloc, word)?;
    let doc = Shared::new(alloc, package_of(alloc, files, &path)?)?;
    Ok(Package { path, doc })
}

fn shared_module(alloc: Global, files: &[Output], path: &str) -> Result<Shared<InfDoc>, Stop> {
    let module = module_at(alloc, files, path)?;
    Ok(Shared::new(alloc, module)?)
}

fn infs_read(alloc: Global, files: &[Output], paths: &str) -> Result<Rows<Shared<InfDoc>>, Stop> {
    let mut infs = Rows::new(alloc);
    for path in paths.split(' ') {
        infs.push(shared_module(alloc, files, path)?)?;
    }
    Ok(infs)
}

fn module_read(
    alloc: Global,
    files: &[Output],
    packages: &Rows<Package>,
    words: &str,
) -> Result<ModuleParts, Stop> {
    let (arch, paths) = first_word(words);
    let (first, _) = first_word(paths);
    let module = module_named(alloc, arch, first)?;
    let infs = infs_read(alloc, files, paths)?;
    let decs = packages.copy(alloc)?;
    Ok(ModuleParts { module, infs, decs })
}

fn rank_of(word: &str) -> Result<u8, Wrong> {
    match u8::try_from(number_of(word)?) {
        Ok(rank) => Ok(rank),
        Err(_) => Err(Wrong::Line("no rank")),
    }
}

fn set_of(alloc: Global, rank: u8, words: &str) -> Result<PcdSet, Stop> {
    let (path, rest) = first_word(words);
    let (line, rest) = first_word(rest);
    let (pcd, value) = first_word(rest);
    let line = number_of(line)?;
    let at = place_of(alloc, path, line)?;
    let pcd = pcd_of(alloc, pcd)?;
    let value = text_of_word(alloc, value)?;
    Ok(PcdSet {
        at,
        rank,
        pcd,
        value,
    })
}

fn add_set(alloc: Global, plan: &mut Plan, words: &str) -> Result<(), Stop> {
    let (rank, rest) = first_word(words);
    let rank = rank_of(rank)?;
    let set = set_of(alloc, rank, rest)?;
    if rank == 1 {
        plan.commands.push(set)?;
    } else {
        plan.sets.push(set)?;
    }
    Ok(())
}

fn add_arch(arches: &mut Rows<Arch>, word: &str) -> Result<(), Stop> {
    arches.push(arch_of(word)?)?;
    Ok(())
}

fn add_sku(alloc: Global, skus: &mut Rows<Text>, word: &str) -> Result<(), Stop> {
    skus.push(text_of_word(alloc, word)?)?;
    Ok(())
}

fn add_words(alloc: Global, plan: &mut Plan, word: &str, rest: &str) -> Result<(), Stop> {
    match word {
        "arch" => add_arch(&mut plan.arches, rest),
        "sku" => add_sku(alloc, &mut plan.skus, rest),
        "set" => add_set(alloc, plan, rest),
        "" => Ok(()),
        _ => Err(other_form()),
    }
}

fn name_platform(alloc: Global, plan: &mut Plan, word: &str) -> Result<(), Stop> {
    plan.platform = Some(path_of(alloc, word)?);
    Ok(())
}

fn add_package(
    alloc: Global,
    files: &[Output],
    packages: &mut Rows<Package>,
    word: &str,
) -> Result<(), Stop> {
    packages.push(package_read(alloc, files, word)?)?;
    Ok(())
}

fn add_module(alloc: Global, files: &[Output], plan: &mut Plan, words: &str) -> Result<(), Stop> {
    let parts = module_read(alloc, files, &plan.packages, words)?;
    plan.modules.push(parts)?;
    Ok(())
}

fn add_line(alloc: Global, files: &[Output], plan: &mut Plan, line: &str) -> Result<(), Stop> {
    let (word, rest) = first_word(line);
    match word {
        "platform" => name_platform(alloc, plan, rest),
        "package" => add_package(alloc, files, &mut plan.packages, rest),
        "module" => add_module(alloc, files, plan, rest),
        _ => add_words(alloc, plan, word, rest),
    }
}

pub fn plan_of(alloc: Global, files: &[Output], path: &str) -> Result<Plan, Stop> {
    let text = text_of(files, path)?;
    let mut plan = empty_plan(alloc);
    for line in text.lines() {
        add_line(alloc, files, &mut plan, line)?;
    }
    Ok(plan)
}
