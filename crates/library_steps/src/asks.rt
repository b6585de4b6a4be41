//! What the steps of libraries and PCDs ask of modules.
ghost use Rattle.std.specs.Prelude.{◌≡◌, ◌++◌, IfOk, OnOk};
ghost use Rattle.library_steps.specs.Asks.{choice_asks, inf_asks, dec_asks, linked_asks, package_asks};

use crate::parts::{Described, Linked};
use build_base::{Path, Rows, Same, WantOfMemory};
use doc_types::choice::Module;
use std::alloc::Global;
use step_engine::Ask;
use step_pack::Key;

/// The libraries of each module.
pub fn choice_asks(alloc: Global, modules: &[Module]) -> Result<Rows<Ask<Key>>, WantOfMemory>
    ensures { IfOk result (λ asks. asks ≡ choice_asks modules.now) }
{
    let mut asks = Rows::new(alloc);
    let mut left = modules;
    while let [module, rest @ ..] = left {
        asks.push(Ask::Part(Key::Choice(module.copy(alloc)?)))?;
        left = rest;
    }
    Ok(asks)
}

fn push_infs(alloc: Global, asks: &mut Rows<Ask<Key>>, paths: &[Path]) -> Result<(), WantOfMemory>
    ensures { OnOk result (asks.new ≡ asks.old ++ inf_asks paths.now) }
{
    let mut left = paths;
    while let [path, rest @ ..] = left {
        asks.push(Ask::Part(Key::Inf(path.copy(alloc)?)))?;
        left = rest;
    }
    Ok(())
}

fn push_decs(alloc: Global, asks: &mut Rows<Ask<Key>>, paths: &[Path]) -> Result<(), WantOfMemory>
    ensures { OnOk result (asks.new ≡ asks.old ++ dec_asks paths.now) }
{
    let mut left = paths;
    while let [path, rest @ ..] = left {
        asks.push(Ask::Part(Key::Dec(path.copy(alloc)?)))?;
        left = rest;
    }
    Ok(())
}

/// The descriptions of some paths.
pub fn inf_asks(alloc: Global, paths: &[Path]) -> Result<Rows<Ask<Key>>, WantOfMemory>
    ensures { IfOk result (λ asks. asks ≡ inf_asks paths.now) }
{
    let mut asks = Rows::new(alloc);
    push_infs(alloc, &mut asks, paths)?;
    Ok(asks)
}

/// The packages of some paths.
pub fn dec_asks(alloc: Global, paths: &[Path]) -> Result<Rows<Ask<Key>>, WantOfMemory>
    ensures { IfOk result (λ asks. asks ≡ dec_asks paths.now) }
{
    let mut asks = Rows::new(alloc);
    push_decs(alloc, &mut asks, paths)?;
    Ok(asks)
}

/// Each module's description, and those of its instances in first-found order.
pub fn linked_asks(alloc: Global, modules: &[Linked]) -> Result<Rows<Ask<Key>>, WantOfMemory>
    ensures { IfOk result (λ asks. asks ≡ linked_asks modules.now) }
{
    let mut asks = Rows::new(alloc);
    let mut left = modules;
    while let [linked, rest @ ..] = left {
        push_infs(alloc, &mut asks, linked.paths.items())?;
        left = rest;
    }
    Ok(asks)
}

/// The packages that each module's descriptions name.
pub fn package_asks(alloc: Global, modules: &[Described]) -> Result<Rows<Ask<Key>>, WantOfMemory>
    ensures { IfOk result (λ asks. asks ≡ package_asks modules.now) }
{
    let mut asks = Rows::new(alloc);
    let mut left = modules;
    while let [described, rest @ ..] = left {
        push_decs(alloc, &mut asks, described.packages.items())?;
        left = rest;
    }
    Ok(asks)
}
