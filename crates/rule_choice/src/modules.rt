//! The architecture of a module in a volume.
ghost use Rattle.std.specs.Prelude.{◌≡◌, ◌++◌, IfOk, OnOk, Some};
ghost use Rattle.build_base.specs.Answer.{Answers, Finds};
ghost use Rattle.rule_choice.specs.Modules.{having_one, having, other_arch, no_component, is_among, only_arch, arch_among, inf_arch};

use build_base::fault_codes::{ARCH_AMBIGUOUS, NOT_A_COMPONENT};
use build_base::{Path, Refusal, Rows, WantOfMemory, refuse};
use doc_types::arch::{Arch, same_arch};
use doc_types::components::Components;
use doc_types::platform::PlatformDoc;
use doc_types::volume::InfLine;
use std::alloc::Global;

fn push_having(
    having: &mut Rows<Arch>,
    components: &Components,
    inf: &Path,
    arch: Arch,
) -> Result<(), WantOfMemory>
    ensures { OnOk result (having.new ≡ having.old ++ having_one components.now inf.now arch) }
{
    if components.find(inf, arch).is_some() {
        return having.push(arch);
    }
    Ok(())
}

// The built architectures that have the component.
fn having(
    alloc: Global,
    components: &Components,
    inf: &Path,
    arches: &[Arch],
) -> Result<Rows<Arch>, WantOfMemory>
    ensures { IfOk result (λ rows. rows ≡ having components.now inf.now arches.now) }
{
    let mut found = Rows::new(alloc);
    let mut left = arches;
    while let [arch, rest @ ..] = left {
        push_having(&mut found, components, inf, *arch)?;
        left = rest;
    }
    Ok(found)
}

fn other_arch(arch: Arch, arches: &[Arch]) -> bool
    ensures { result ≡ other_arch arch arches.now }
{
    let mut left = arches;
    while let [other, rest @ ..] = left {
        if !same_arch(*other, arch) {
            return true;
        }
        left = rest;
    }
    false
}

fn is_among(arch: Arch, arches: &[Arch]) -> bool
    ensures { result ≡ is_among arch arches.now }
{
    let mut left = arches;
    while let [other, rest @ ..] = left {
        if same_arch(*other, arch) {
            return true;
        }
        left = rest;
    }
    false
}

fn no_component(alloc: Global, line: &InfLine) -> Refusal
    ensures { Finds result (Some (no_component line.now)) }
{
    refuse(alloc, NOT_A_COMPONENT, &line.at, line.inf.bytes())
}

fn only_arch(alloc: Global, line: &InfLine, arches: &[Arch]) -> Result<Arch, Refusal>
    ensures { Answers result (only_arch line.now arches.now) }
{
    match arches {
        [] => Err(no_component(alloc, line)),
        [arch, rest @ ..] => {
            if other_arch(*arch, rest) {
                return Err(refuse(alloc, ARCH_AMBIGUOUS, &line.at, line.inf.bytes()));
            }
            Ok(*arch)
        }
    }
}

fn arch_among(alloc: Global, line: &InfLine, arches: &[Arch]) -> Result<Arch, Refusal>
    ensures { Answers result (arch_among line.now arches.now line.now.arch) }
{
    match line.arch {
        None => only_arch(alloc, line, arches),
        Some(arch) => {
            if is_among(arch, arches) {
                return Ok(arch);
            }
            Err(no_component(alloc, line))
        }
    }
}

/// The architecture for which a volume has the module of an INF statement: that of USE, else the
/// only one of the built `arches` for which the platform has the component. A fault where none has
/// it (259), or several (254).
pub fn inf_arch(
    alloc: Global,
    line: &InfLine,
    platform: &PlatformDoc,
    arches: &Rows<Arch>,
) -> Result<Arch, Refusal>
    ensures { Answers result (inf_arch line.now platform.now.components arches.now) }
{
    let found = having(alloc, &platform.components, &line.inf, arches.items())?;
    arch_among(alloc, line, found.items())
}
