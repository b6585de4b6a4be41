//! AutoGen.h of a module.
ghost use Rattle.std.specs.Prelude.{◌≡◌, ◌++◌, OnOk, IfOk};
ghost use Rattle.build_texts.specs.Code.{title, base_name, define_base_name, define_file_guid, define_value, define_token, base_name_line, file_guid_line, macro_name, value_line, token_line, same_pcd, goes_on, pcd_line, pcd_lines, header_text};

use crate::asks::CodeAsk;
use crate::guids::{put_guid, put_number};
use crate::words::arch_word;
use build_base::{Guid, Text, WantOfMemory};
use doc_types::choice::Module;
use doc_types::module::InfDoc;
use doc_types::pcd::PcdName;
use doc_types::values::PcdRow;
use pcd_resolve::names::is_dynamic;
use pcd_values::print_value;
use shared_value::Shared;
use std::alloc::{AllocError, Global};

/// Adds the first line of both texts.
#[tactic(auto, unfolding(crate::specs::Code::title))]
pub(crate) fn put_title(out: &mut Vec<u8>, user: &Module) -> Result<(), AllocError>
    ensures { OnOk result (out.new.items ≡ out.old.items ++ title user.now) }
{
    out.extend_from_slice(b"/* ")?;
    out.extend_from_slice(user.inf.bytes())?;
    out.extend_from_slice(b" ")?;
    out.extend_from_slice(arch_word(user.arch))?;
    out.extend_from_slice(b" */\n")?;
    Ok(())
}

fn base_name(infs: &[Shared<InfDoc>]) -> &[u8]
    ensures { result.now ≡ base_name infs.now }
{
    match infs {
        [] => b"".as_slice(),
        [inf, ..] => inf.value().base_name.bytes(),
    }
}

#[tactic(auto, unfolding(crate::specs::Code::define_base_name))]
fn define_base_name(out: &mut Vec<u8>) -> Result<(), AllocError>
    ensures { OnOk result (out.new.items ≡ out.old.items ++ define_base_name) }
{
    out.extend_from_slice(b"#define MODULE_BASE_NAME ")?;
    Ok(())
}

#[tactic(auto, unfolding(crate::specs::Code::define_file_guid))]
fn define_file_guid(out: &mut Vec<u8>) -> Result<(), AllocError>
    ensures { OnOk result (out.new.items ≡ out.old.items ++ define_file_guid) }
{
    out.extend_from_slice(b"#define MODULE_FILE_GUID ")?;
    Ok(())
}

#[tactic(auto, unfolding(crate::specs::Code::define_value))]
fn define_value(out: &mut Vec<u8>) -> Result<(), AllocError>
    ensures { OnOk result (out.new.items ≡ out.old.items ++ define_value) }
{
    out.extend_from_slice(b"#define PCD_VALUE_")?;
    Ok(())
}

#[tactic(auto, unfolding(crate::specs::Code::define_token))]
fn define_token(out: &mut Vec<u8>) -> Result<(), AllocError>
    ensures { OnOk result (out.new.items ≡ out.old.items ++ define_token) }
{
    out.extend_from_slice(b"#define PCD_TOKEN_")?;
    Ok(())
}

fn put_base_name(out: &mut Vec<u8>, name: &[u8]) -> Result<(), AllocError>
    ensures { OnOk result (out.new.items ≡ out.old.items ++ base_name_line name.now) }
{
    define_base_name(out)?;
    out.extend_from_slice(b"\"")?;
    out.extend_from_slice(name)?;
    out.extend_from_slice(b"\"\n")?;
    Ok(())
}

fn put_file_guid(out: &mut Vec<u8>, guid: &Guid) -> Result<(), AllocError>
    ensures { OnOk result (out.new.items ≡ out.old.items ++ file_guid_line guid.now) }
{
    define_file_guid(out)?;
    out.extend_from_slice(b"\"")?;
    put_guid(out, guid)?;
    out.extend_from_slice(b"\"\n")?;
    Ok(())
}

fn put_macro_name(out: &mut Vec<u8>, pcd: &PcdName) -> Result<(), AllocError>
    ensures { OnOk result (out.new.items ≡ out.old.items ++ macro_name pcd.now) }
{
    out.extend_from_slice(pcd.space.bytes())?;
    out.extend_from_slice(b"_")?;
    out.extend_from_slice(pcd.name.bytes())?;
    Ok(())
}

fn put_value(alloc: Global, out: &mut Vec<u8>, row: &PcdRow) -> Result<(), WantOfMemory>
    ensures { OnOk result (out.new.items ≡ out.old.items ++ value_line row.now) }
{
    let value = print_value(alloc, row.datum, row.value.bytes())?;
    define_value(out)?;
    put_macro_name(out, &row.pcd)?;
    out.extend_from_slice(b" ")?;
    out.extend_from_slice(value.bytes())?;
    out.extend_from_slice(b"\n")?;
    Ok(())
}

fn put_token(alloc: Global, out: &mut Vec<u8>, row: &PcdRow) -> Result<(), WantOfMemory>
    ensures { OnOk result (out.new.items ≡ out.old.items ++ token_line row.now) }
{
    define_token(out)?;
    put_macro_name(out, &row.pcd)?;
    out.extend_from_slice(b" ")?;
    put_number(alloc, out, &row.token.to_le_bytes())?;
    out.extend_from_slice(b"\n")?;
    Ok(())
}

fn same_pcd(first: &PcdName, second: &PcdName) -> bool
    ensures { result ≡ same_pcd first.now second.now }
{
    first.space.bytes() == second.space.bytes() && first.name.bytes() == second.name.bytes()
}

fn goes_on(pcd: &PcdName, rows: &[PcdRow]) -> bool
    ensures { result ≡ goes_on pcd.now rows.now }
{
    match rows {
        [] => false,
        [row, ..] => same_pcd(pcd, &row.pcd),
    }
}

// Adds the line of a row, by the rows below it.
#[tactic(auto, unfolding(crate::specs::Code::pcd_line))]
fn put_pcd(
    alloc: Global,
    out: &mut Vec<u8>,
    row: &PcdRow,
    rows: &[PcdRow],
) -> Result<(), WantOfMemory>
    ensures { OnOk result (out.new.items ≡ out.old.items ++ pcd_line row.now rows.now) }
{
    if !is_dynamic(row.kind) {
        put_value(alloc, out, row)?;
        return Ok(());
    }
    if !goes_on(&row.pcd, rows) {
        put_token(alloc, out, row)?;
    }
    Ok(())
}

#[tactic(auto, unfolding(crate::specs::Code::pcd_lines))]
fn put_pcds(alloc: Global, out: &mut Vec<u8>, rows: &[PcdRow]) -> Result<(), WantOfMemory>
    ensures { OnOk result (out.new.items ≡ out.old.items ++ pcd_lines rows.now) }
{
    let mut left = rows;
    while let [row, rest @ ..] = left {
        put_pcd(alloc, out, row, rest)?;
        left = rest;
    }
    Ok(())
}

/// AutoGen.h.
#[tactic(auto, unfolding(crate::specs::Code::header_text))]
pub(crate) fn header_text(alloc: Global, ask: &CodeAsk) -> Result<Text, WantOfMemory>
    ensures { IfOk result (λ t. t ≡ header_text ask.now) }
{
    let mut out = Vec::new(alloc);
    put_title(&mut out, &ask.parts.module)?;
    put_base_name(&mut out, base_name(ask.parts.infs.items()))?;
    put_file_guid(&mut out, &ask.file_guid)?;
    put_pcds(alloc, &mut out, ask.values.value().rows.items())?;
    Ok(Text::from_vec(out))
}
