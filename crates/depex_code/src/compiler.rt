//! The expression of a module.
ghost use Rattle.std.specs.Prelude.{◌≡◌, true};
ghost use Rattle.depex_code.specs.Grammar.{IsGrammar};
ghost use Rattle.depex_code.specs.Terms.{expression, is_begun};
ghost use Rattle.build_base.specs.Answer.{Answers};
ghost use Rattle.depex_code.specs.Compiled.{takes_words, is_single, first_has_sor, has_depex, module_leave, has_front, compiled};

use crate::join::{final_bytes, joined_groups};
use crate::leave::{Leave, NO_LEAVE};
use crate::words::begins_with_sor;
use build_base::{Permit, Refusal, Rows, Text};
use doc_types::depex::{DepexGroup, DepexPart};
use doc_types::module_type::ModuleType;
use std::alloc::Global;

#[tactic(auto, unfolding(crate::specs::Compiled::has_depex))]
fn has_depex(module_type: ModuleType) -> bool
    ensures { result ≡ has_depex module_type }
{
    match module_type {
        ModuleType::Peim => true,
        ModuleType::DxeDriver => true,
        ModuleType::DxeRuntimeDriver => true,
        ModuleType::DxeSalDriver => true,
        ModuleType::DxeSmmDriver => true,
        ModuleType::MmStandalone => true,
        _ => false,
    }
}

fn takes_words(module_type: ModuleType) -> bool
    ensures { result ≡ takes_words module_type }
{
    match module_type {
        ModuleType::Peim => false,
        _ => true,
    }
}

fn is_single(parts: &[DepexPart]) -> bool
    ensures { result ≡ is_single parts.now }
{
    parts.len() == 1
}

fn module_leave(module_type: ModuleType, groups: &[DepexGroup]) -> Leave
    ensures { result ≡ module_leave module_type groups.now }
{
    match groups.first() {
        None => NO_LEAVE,
        Some(group) => Leave {
            sor: takes_words(module_type),
            edge: takes_words(module_type) && is_single(group.parts.items()),
        },
    }
}

fn first_has_sor(parts: &[DepexPart]) -> bool
    ensures { result ≡ first_has_sor parts.now }
{
    match parts.first() {
        None => false,
        Some(part) => begins_with_sor(part.terms.items()),
    }
}

fn has_front(leave: Leave, groups: &[DepexGroup]) -> bool
    ensures { result ≡ has_front leave groups.now }
{
    match groups.first() {
        None => false,
        Some(group) => leave.sor && first_has_sor(group.parts.items()),
    }
}

fn module_bytes(
    alloc: Global,
    module_type: ModuleType,
    groups: &[DepexGroup],
) -> Result<Text, Refusal>
    requires { has_depex module_type ≡ true }
    ensures { Answers result (compiled module_type groups.now) }
{
    let leave = module_leave(module_type, groups);
    let front = has_front(leave, groups);
    match joined_groups(alloc, front, leave, groups) {
        Ok(whole) => Ok(final_bytes(alloc, front, whole)?),
        Err(e) => Err(e),
    }
}

/// The bytes of a module's dependency expression (UEFI PI specification, volumes 1 and 2). `groups`
/// has the module's INF first, then its libraries'. A joined expression of nothing but AND, GUIDs
/// and TRUE loses its repeats and its TRUE. Faults 501 to 504; a type without an expression has no
/// bytes.
#[tactic(auto, using(crate::proofs::TermFinish::grammar))]
pub fn compile(
    alloc: Global,
    permit: Permit,
    module_type: ModuleType,
    groups: &Rows<DepexGroup>,
) -> Result<Text, Refusal>
    ensures value { Answers result (compiled module_type groups.now) }
    ensures grammar { IsGrammar expression is_begun }
{
    let _ = permit;
    if has_depex(module_type) {
        module_bytes(alloc, module_type, groups.items())
    } else {
        Ok(Text::of(alloc, b"")?)
    }
}
