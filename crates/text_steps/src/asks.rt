//! What the whole build and the report ask of modules.
ghost use Rattle.std.specs.Prelude.{◌≡◌, ◌++◌, IfOk, OnOk};
ghost use Rattle.std.specs.List.{flat_map};
ghost use Rattle.text_steps.specs.Asks.{built_asks, build_module_asks, told_asks, report_asks};

use build_base::{Rows, Same, WantOfMemory};
use doc_types::choice::Module;
use std::alloc::Global;
use step_engine::Ask;
use step_pack::Key;

fn push_built(alloc: Global, asks: &mut Rows<Ask<Key>>, module: &Module) -> Result<(), WantOfMemory>
    ensures { OnOk result (asks.new ≡ asks.old ++ built_asks «module».now) }
{
    asks.push(Ask::Part(Key::Inf(module.inf.copy(alloc)?)))?;
    asks.push(Ask::Part(Key::Code(module.copy(alloc)?)))?;
    asks.push(Ask::Part(Key::Depex(module.copy(alloc)?)))
}

/// Appends what a build asks of its modules, module by module: the description, the texts and the
/// expression.
pub fn push_module_asks(
    alloc: Global,
    asks: &mut Rows<Ask<Key>>,
    modules: &[Module],
) -> Result<(), WantOfMemory>
    ensures { OnOk result (asks.new ≡ asks.old ++ build_module_asks modules.now) }
{
    let mut left = modules;
    while let [module, rest @ ..] = left {
        push_built(alloc, asks, module)?;
        left = rest;
    }
    Ok(())
}

fn push_told(alloc: Global, asks: &mut Rows<Ask<Key>>, module: &Module) -> Result<(), WantOfMemory>
    ensures { OnOk result (asks.new ≡ asks.old ++ told_asks «module».now) }
{
    asks.push(Ask::Part(Key::Choice(module.copy(alloc)?)))?;
    asks.push(Ask::Part(Key::Values(module.copy(alloc)?)))
}

fn push_all_told(
    alloc: Global,
    asks: &mut Rows<Ask<Key>>,
    modules: &[Module],
) -> Result<(), WantOfMemory>
    ensures { OnOk result (asks.new ≡ asks.old ++ flat_map told_asks modules.now) }
{
    let mut left = modules;
    while let [told, rest @ ..] = left {
        push_told(alloc, asks, told)?;
        left = rest;
    }
    Ok(())
}

/// What a report asks: the rows of dynamic PCDs, and then of each module its libraries and its
/// values.
pub fn report_asks(alloc: Global, modules: &[Module]) -> Result<Rows<Ask<Key>>, WantOfMemory>
    ensures { IfOk result (λ asks. asks ≡ report_asks modules.now) }
{
    let mut asks = Rows::new(alloc);
    asks.push(Ask::Part(Key::PlatformPcds))?;
    push_all_told(alloc, &mut asks, modules)?;
    Ok(asks)
}
