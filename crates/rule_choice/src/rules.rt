//! The rule for a module.
ghost use Rattle.std.specs.Prelude.{◌≡◌, ◌++◌, IfOk, OnOk, codes};
ghost use Rattle.std.specs.List.{position};
ghost use Rattle.build_base.specs.Answer.{Answers};
ghost use Rattle.rule_choice.specs.Rules.{arch_text, type_text, is_for, rule_place, rule_name, rule_of};

use build_base::fault_codes::RULE_ABSENT;
use build_base::{Refusal, Text, WantOfMemory, refuse};
use doc_types::arch::{Arch, same_arch};
use doc_types::flash::FlashDoc;
use doc_types::module_type::ModuleType;
use doc_types::volume::{InfLine, RuleDoc};
use meta_lexer::words::same_word;
use std::alloc::Global;

fn arch_text(arch: Arch) -> &'static [u8]
    ensures { result.now ≡ arch_text arch }
{
    match arch {
        Arch::Common => b"COMMON".as_slice(),
        Arch::Ia32 => b"IA32".as_slice(),
        Arch::X64 => b"X64".as_slice(),
        Arch::Arm => b"ARM".as_slice(),
        Arch::Aarch64 => b"AARCH64".as_slice(),
        Arch::Riscv64 => b"RISCV64".as_slice(),
        Arch::Loongarch64 => b"LOONGARCH64".as_slice(),
        Arch::Ebc => b"EBC".as_slice(),
    }
}

fn type_text(module_type: ModuleType) -> &'static [u8]
    ensures { result.now ≡ type_text module_type }
{
    match module_type {
        ModuleType::Base => b"BASE".as_slice(),
        ModuleType::Sec => b"SEC".as_slice(),
        ModuleType::PeiCore => b"PEI_CORE".as_slice(),
        ModuleType::Peim => b"PEIM".as_slice(),
        ModuleType::DxeCore => b"DXE_CORE".as_slice(),
        ModuleType::DxeDriver => b"DXE_DRIVER".as_slice(),
        ModuleType::DxeRuntimeDriver => b"DXE_RUNTIME_DRIVER".as_slice(),
        ModuleType::DxeSalDriver => b"DXE_SAL_DRIVER".as_slice(),
        ModuleType::DxeSmmDriver => b"DXE_SMM_DRIVER".as_slice(),
        ModuleType::SmmCore => b"SMM_CORE".as_slice(),
        ModuleType::MmStandalone => b"MM_STANDALONE".as_slice(),
        ModuleType::MmCoreStandalone => b"MM_CORE_STANDALONE".as_slice(),
        ModuleType::UefiDriver => b"UEFI_DRIVER".as_slice(),
        ModuleType::UefiApplication => b"UEFI_APPLICATION".as_slice(),
        ModuleType::UserDefined => b"USER_DEFINED".as_slice(),
        ModuleType::HostApplication => b"HOST_APPLICATION".as_slice(),
    }
}

// A rule is for this architecture and type, with this template.
fn is_for(arch: Arch, module_type: ModuleType, template: &[u8], rule: &RuleDoc) -> bool
    ensures { result ≡ is_for arch module_type template.now rule.now }
{
    if !same_arch(rule.arch, arch) {
        return false;
    }
    if !same_word(type_text(rule.module_type), type_text(module_type)) {
        return false;
    }
    same_word(rule.template.bytes(), template)
}

fn place_for(
    rules: &[RuleDoc],
    arch: Arch,
    module_type: ModuleType,
    template: &[u8],
) -> Option<usize>
    ensures { result ≡ position (is_for arch module_type template.now) rules.now }
{
    rules
        .iter()
        .position(|rule| is_for(arch, module_type, template, rule))
}

fn rule_place(
    rules: &[RuleDoc],
    arch: Arch,
    module_type: ModuleType,
    template: &[u8],
) -> Option<usize>
    ensures { result ≡ rule_place rules.now arch module_type template.now }
{
    match place_for(rules, arch, module_type, template) {
        Some(place) => Some(place),
        None => place_for(rules, Arch::Common, module_type, template),
    }
}

// Adds a word and the dot behind it.
fn push_word(name: &mut Vec<u8>, word: &[u8]) -> Result<(), WantOfMemory>
    ensures { OnOk result (name.new.items ≡ name.old.items ++ word.now ++ codes ".") }
{
    name.extend_from_slice(word)?;
    name.extend_from_slice(b".".as_slice())?;
    Ok(())
}

fn rule_name(
    alloc: Global,
    arch: Arch,
    module_type: ModuleType,
    template: &[u8],
) -> Result<Text, WantOfMemory>
    ensures { IfOk result (λ name. name ≡ rule_name arch module_type template.now) }
{
    let mut name = Vec::new(alloc);
    push_word(&mut name, arch_text(arch))?;
    push_word(&mut name, type_text(module_type))?;
    name.extend_from_slice(template)?;
    Ok(Text::from_vec(name))
}

/// The number of the rule for a module that an INF statement names: the one of its architecture,
/// else the one of every architecture.
pub fn rule_of(
    alloc: Global,
    flash: &FlashDoc,
    line: &InfLine,
    arch: Arch,
    module_type: ModuleType,
) -> Result<u32, Refusal>
    ensures { Answers result (rule_of flash.now.rule_list line.now arch module_type) }
{
    let template = line.template.bytes();
    match rule_place(flash.rule_list.items(), arch, module_type, template) {
        Some(place) => match u32::try_from(place) {
            Ok(number) => Ok(number),
            Err(_) => Err(Refusal::WantOfMemory),
        },
        None => {
            let name = rule_name(alloc, arch, module_type, template)?;
            Err(refuse(alloc, RULE_ABSENT, &line.at, name.bytes()))
        }
    }
}
