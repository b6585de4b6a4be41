//! The report of a build.
ghost use Rattle.std.specs.Prelude.{◌≡◌, ◌++◌, OnOk, IfOk};
ghost use Rattle.std.specs.List.{flat_map};
ghost use Rattle.build_texts.specs.Report.{platform_line, target_line, sku_line, pcd_name, in_row, pcd_line, dynamic_line, fixed_line, module_line, library_line, constructor_line, module_lines, report_text};

use crate::asks::{ModuleReport, ReportAsk};
use crate::guids::put_guid;
use crate::words::{arch_word, datum_word, kind_word, source_word};
use build_base::{Path, Text, WantOfMemory};
use doc_types::choice::{Call, Module};
use doc_types::platform::{PlatformDoc, Sku};
use doc_types::values::PcdRow;
use itoa::Buffer;
use pcd_resolve::names::is_dynamic;
use pcd_values::print_value;
use std::alloc::{AllocError, Global};

#[tactic(auto, unfolding(crate::specs::Report::platform_line))]
fn put_platform(out: &mut Vec<u8>, platform: &PlatformDoc) -> Result<(), AllocError>
    ensures { OnOk result (out.new.items ≡ out.old.items ++ platform_line platform.now) }
{
    out.extend_from_slice(b"platform ")?;
    out.extend_from_slice(platform.name.bytes())?;
    out.extend_from_slice(b" ")?;
    put_guid(out, &platform.guid)?;
    out.extend_from_slice(b"\n")?;
    Ok(())
}

#[tactic(auto, unfolding(crate::specs::Report::target_line))]
fn put_target(out: &mut Vec<u8>, target: &[u8], tag: &[u8]) -> Result<(), AllocError>
    ensures { OnOk result (out.new.items ≡ out.old.items ++ target_line target.now tag.now) }
{
    out.extend_from_slice(b"target ")?;
    out.extend_from_slice(target)?;
    out.extend_from_slice(b"_")?;
    out.extend_from_slice(tag)?;
    out.extend_from_slice(b"\n")?;
    Ok(())
}

#[tactic(auto, unfolding(crate::specs::Report::sku_line))]
fn put_sku(out: &mut Vec<u8>, sku: &Sku) -> Result<(), AllocError>
    ensures { OnOk result (out.new.items ≡ out.old.items ++ sku_line sku.now) }
{
    let mut digits = Buffer::new();
    out.extend_from_slice(b"sku ")?;
    out.extend_from_slice(digits.format(sku.id).as_bytes())?;
    out.extend_from_slice(b" ")?;
    out.extend_from_slice(sku.name.bytes())?;
    out.extend_from_slice(b"\n")?;
    Ok(())
}

fn put_skus(out: &mut Vec<u8>, skus: &[Sku]) -> Result<(), AllocError>
    ensures { OnOk result (out.new.items ≡ out.old.items ++ flat_map sku_line skus.now) }
{
    let mut left = skus;
    while let [sku, rest @ ..] = left {
        put_sku(out, sku)?;
        left = rest;
    }
    Ok(())
}

#[tactic(auto, unfolding(crate::specs::Report::pcd_name))]
fn put_pcd_name(out: &mut Vec<u8>, row: &PcdRow) -> Result<(), AllocError>
    ensures { OnOk result (out.new.items ≡ out.old.items ++ pcd_name row.now) }
{
    out.extend_from_slice(b"pcd ")?;
    out.extend_from_slice(row.pcd.space.bytes())?;
    out.extend_from_slice(b".")?;
    out.extend_from_slice(row.pcd.name.bytes())?;
    Ok(())
}

#[tactic(auto, unfolding(crate::specs::Report::in_row))]
fn put_word(out: &mut Vec<u8>, word: &[u8]) -> Result<(), AllocError>
    ensures { OnOk result (out.new.items ≡ out.old.items ++ in_row word.now) }
{
    out.extend_from_slice(b" ")?;
    out.extend_from_slice(word)?;
    Ok(())
}

#[tactic(auto, unfolding(crate::specs::Report::pcd_line))]
fn put_pcd(alloc: Global, out: &mut Vec<u8>, sku: &[u8], row: &PcdRow) -> Result<(), WantOfMemory>
    ensures { OnOk result (out.new.items ≡ out.old.items ++ pcd_line sku.now row.now) }
{
    let value = print_value(alloc, row.datum, row.value.bytes())?;
    put_pcd_name(out, row)?;
    put_word(out, kind_word(row.kind))?;
    put_word(out, datum_word(row.datum))?;
    put_word(out, sku)?;
    put_word(out, value.bytes())?;
    put_word(out, source_word(row.rank))?;
    out.extend_from_slice(b"\n")?;
    Ok(())
}

#[tactic(auto, unfolding(crate::specs::Report::dynamic_line))]
fn put_dynamic(alloc: Global, out: &mut Vec<u8>, row: &PcdRow) -> Result<(), WantOfMemory>
    ensures { OnOk result (out.new.items ≡ out.old.items ++ dynamic_line row.now) }
{
    if is_dynamic(row.kind) {
        put_pcd(alloc, out, row.sku.bytes(), row)?;
    }
    Ok(())
}

#[tactic(auto, unfolding(crate::specs::Report::fixed_line))]
fn put_fixed(alloc: Global, out: &mut Vec<u8>, row: &PcdRow) -> Result<(), WantOfMemory>
    ensures { OnOk result (out.new.items ≡ out.old.items ++ fixed_line row.now) }
{
    if !is_dynamic(row.kind) {
        put_pcd(alloc, out, b"-", row)?;
    }
    Ok(())
}

fn put_dynamics(alloc: Global, out: &mut Vec<u8>, rows: &[PcdRow]) -> Result<(), WantOfMemory>
    ensures { OnOk result (out.new.items ≡ out.old.items ++ flat_map dynamic_line rows.now) }
{
    let mut left = rows;
    while let [row, rest @ ..] = left {
        put_dynamic(alloc, out, row)?;
        left = rest;
    }
    Ok(())
}

fn put_fixed_rows(alloc: Global, out: &mut Vec<u8>, rows: &[PcdRow]) -> Result<(), WantOfMemory>
    ensures { OnOk result (out.new.items ≡ out.old.items ++ flat_map fixed_line rows.now) }
{
    let mut left = rows;
    while let [row, rest @ ..] = left {
        put_fixed(alloc, out, row)?;
        left = rest;
    }
    Ok(())
}

#[tactic(auto, unfolding(crate::specs::Report::module_line))]
fn put_module(out: &mut Vec<u8>, user: &Module) -> Result<(), AllocError>
    ensures { OnOk result (out.new.items ≡ out.old.items ++ module_line user.now) }
{
    out.extend_from_slice(b"module ")?;
    out.extend_from_slice(arch_word(user.arch))?;
    out.extend_from_slice(b" ")?;
    out.extend_from_slice(user.inf.bytes())?;
    out.extend_from_slice(b"\n")?;
    Ok(())
}

#[tactic(auto, unfolding(crate::specs::Report::library_line))]
fn put_library(out: &mut Vec<u8>, path: &Path) -> Result<(), AllocError>
    ensures { OnOk result (out.new.items ≡ out.old.items ++ library_line path.now) }
{
    out.extend_from_slice(b"library ")?;
    out.extend_from_slice(path.bytes())?;
    out.extend_from_slice(b"\n")?;
    Ok(())
}

fn put_libraries(out: &mut Vec<u8>, paths: &[Path]) -> Result<(), AllocError>
    ensures { OnOk result (out.new.items ≡ out.old.items ++ flat_map library_line paths.now) }
{
    let mut left = paths;
    while let [path, rest @ ..] = left {
        put_library(out, path)?;
        left = rest;
    }
    Ok(())
}

#[tactic(auto, unfolding(crate::specs::Report::constructor_line))]
fn put_constructor(out: &mut Vec<u8>, call: &Call) -> Result<(), AllocError>
    ensures { OnOk result (out.new.items ≡ out.old.items ++ constructor_line call.now) }
{
    out.extend_from_slice(b"constructor ")?;
    out.extend_from_slice(call.inf.bytes())?;
    out.extend_from_slice(b" ")?;
    out.extend_from_slice(call.name.bytes())?;
    out.extend_from_slice(b"\n")?;
    Ok(())
}

fn put_constructors(out: &mut Vec<u8>, calls: &[Call]) -> Result<(), AllocError>
    ensures { OnOk result (out.new.items ≡ out.old.items ++ flat_map constructor_line calls.now) }
{
    let mut left = calls;
    while let [call, rest @ ..] = left {
        put_constructor(out, call)?;
        left = rest;
    }
    Ok(())
}

#[tactic(auto, unfolding(crate::specs::Report::module_lines))]
fn put_report(alloc: Global, out: &mut Vec<u8>, built: &ModuleReport) -> Result<(), WantOfMemory>
    ensures { OnOk result (out.new.items ≡ out.old.items ++ module_lines built.now) }
{
    if built.choice.library {
        return Ok(());
    }
    put_module(out, &built.module)?;
    put_libraries(out, built.choice.instances.items())?;
    put_constructors(out, built.choice.constructors.items())?;
    put_fixed_rows(alloc, out, built.values.value().rows.items())?;
    Ok(())
}

fn put_reports(
    alloc: Global,
    out: &mut Vec<u8>,
    modules: &[ModuleReport],
) -> Result<(), WantOfMemory>
    ensures { OnOk result (out.new.items ≡ out.old.items ++ flat_map module_lines modules.now) }
{
    let mut left = modules;
    while let [built, rest @ ..] = left {
        put_report(alloc, out, built)?;
        left = rest;
    }
    Ok(())
}

/// The report. Modules that are libraries have no lines.
#[tactic(auto, unfolding(crate::specs::Report::report_text))]
pub fn report_text(alloc: Global, ask: &ReportAsk) -> Result<Text, WantOfMemory>
    ensures { IfOk result (λ t. t ≡ report_text ask.now) }
{
    let mut out = Vec::new(alloc);
    put_platform(&mut out, ask.platform.value())?;
    put_target(&mut out, ask.target.bytes(), ask.tag.bytes())?;
    put_skus(&mut out, ask.skus.items())?;
    put_dynamics(alloc, &mut out, ask.dynamic.value().rows.items())?;
    put_reports(alloc, &mut out, ask.modules.items())?;
    Ok(Text::from_vec(out))
}
