//! AutoGen.c of a module.
ghost use Rattle.std.specs.Prelude.{◌≡◌, ◌++◌, OnOk, IfOk, map};
ghost use Rattle.std.specs.List.{flat_map};
ghost use Rattle.build_texts.specs.Code.{guid_line, call_line, calls, constructor_list, destructor_list, entries, entry_point_list, entry_points, function, function_head, include_line, source_text};
ghost use Rattle.build_texts.specs.Named.{by_name};
ghost use Rattle.build_texts.specs.Views.{entry_view, seen};

use crate::asks::CodeAsk;
use crate::guids::put_initializer;
use crate::header::put_title;
use crate::names::{FoundGuid, by_name};
use build_base::{Guid, Text, WantOfMemory};
use doc_types::choice::{Call, Choice};
use doc_types::module::{InfDoc, Named};
use shared_value::Shared;
use std::alloc::{AllocError, Global};
use std::collections::BTreeMap;

#[tactic(auto, unfolding(crate::specs::Code::guid_line))]
fn put_guid(
    alloc: Global,
    out: &mut Vec<u8>,
    name: &[u8],
    guid: &[u8; 16],
) -> Result<(), WantOfMemory>
    ensures { OnOk result (out.new.items ≡ out.old.items
        ++ guid_line (name.now, record { 0 = guid.now })) }
{
    out.extend_from_slice(b"GUID ")?;
    out.extend_from_slice(name)?;
    out.extend_from_slice(b" = ")?;
    put_initializer(alloc, out, guid)?;
    out.extend_from_slice(b";\n")?;
    Ok(())
}

fn put_guids(
    alloc: Global,
    out: &mut Vec<u8>,
    table: BTreeMap<Vec<u8>, Guid>,
) -> Result<(), WantOfMemory>
    ensures { OnOk result (out.new.items ≡ out.old.items
        ++ flat_map guid_line (map entry_view table.entries)) }
{
    for (name, guid) in table {
        put_guid(alloc, out, name.as_slice(), &guid.0)?;
    }
    Ok(())
}

fn put_named(alloc: Global, out: &mut Vec<u8>, named: &[FoundGuid<'_>]) -> Result<(), WantOfMemory>
    ensures { OnOk result (out.new.items ≡ out.old.items
        ++ flat_map guid_line (by_name (seen named.now))) }
{
    let table = by_name(alloc, named)?;
    put_guids(alloc, out, table)?;
    Ok(())
}

#[tactic(auto, unfolding(crate::specs::Code::call_line))]
fn put_call(out: &mut Vec<u8>, name: &[u8]) -> Result<(), AllocError>
    ensures { OnOk result (out.new.items ≡ out.old.items ++ call_line name.now) }
{
    out.extend_from_slice(b"  ")?;
    out.extend_from_slice(name)?;
    out.extend_from_slice(b"();\n")?;
    Ok(())
}

fn put_calls(out: &mut Vec<u8>, listed: &[Call]) -> Result<(), AllocError>
    ensures { OnOk result (out.new.items ≡ out.old.items ++ calls listed.now) }
{
    let mut left = listed;
    while let [call, rest @ ..] = left {
        put_call(out, call.name.bytes())?;
        left = rest;
    }
    Ok(())
}

fn put_entries(out: &mut Vec<u8>, listed: &[Named]) -> Result<(), AllocError>
    ensures { OnOk result (out.new.items ≡ out.old.items ++ entries listed.now) }
{
    let mut left = listed;
    while let [named, rest @ ..] = left {
        put_call(out, named.name.bytes())?;
        left = rest;
    }
    Ok(())
}

#[tactic(auto, unfolding(crate::specs::Code::function_head))]
fn put_head(out: &mut Vec<u8>, name: &[u8]) -> Result<(), AllocError>
    ensures { OnOk result (out.new.items ≡ out.old.items ++ function_head name.now) }
{
    out.extend_from_slice(b"void ")?;
    out.extend_from_slice(name)?;
    out.extend_from_slice(b"(void) {\n")?;
    Ok(())
}

// Adds a function that makes these calls.
#[tactic(auto, unfolding(crate::specs::Code::function))]
fn put_list(out: &mut Vec<u8>, name: &[u8], listed: &[Call]) -> Result<(), AllocError>
    ensures { OnOk result (out.new.items ≡ out.old.items ++ function name.now (calls listed.now)) }
{
    put_head(out, name)?;
    put_calls(out, listed)?;
    out.extend_from_slice(b"}\n")?;
    Ok(())
}

#[tactic(auto, unfolding(crate::specs::Code::constructor_list))]
fn put_constructors(out: &mut Vec<u8>, choice: &Choice) -> Result<(), AllocError>
    ensures { OnOk result (out.new.items ≡ out.old.items ++ constructor_list choice.now) }
{
    put_list(out, b"ConstructorList", choice.constructors.items())?;
    Ok(())
}

#[tactic(auto, unfolding(crate::specs::Code::destructor_list))]
fn put_destructors(out: &mut Vec<u8>, choice: &Choice) -> Result<(), AllocError>
    ensures { OnOk result (out.new.items ≡ out.old.items ++ destructor_list choice.now) }
{
    put_list(out, b"DestructorList", choice.destructors.items())?;
    Ok(())
}

fn entry_points(infs: &[Shared<InfDoc>]) -> &[Named]
    ensures { result.now ≡ entry_points infs.now }
{
    match infs {
        [] => &[],
        [inf, ..] => inf.value().entry_points.items(),
    }
}

#[tactic(auto, unfolding(crate::specs::Code::function))]
fn put_entry_list(out: &mut Vec<u8>, name: &[u8], listed: &[Named]) -> Result<(), AllocError>
    ensures { OnOk result (out.new.items ≡ out.old.items
        ++ function name.now (entries listed.now)) }
{
    put_head(out, name)?;
    put_entries(out, listed)?;
    out.extend_from_slice(b"}\n")?;
    Ok(())
}

#[tactic(auto, unfolding(crate::specs::Code::entry_point_list))]
fn put_entry_points(out: &mut Vec<u8>, infs: &[Shared<InfDoc>]) -> Result<(), AllocError>
    ensures { OnOk result (out.new.items ≡ out.old.items ++ entry_point_list infs.now) }
{
    put_entry_list(out, b"EntryPointList", entry_points(infs))?;
    Ok(())
}

#[tactic(auto, unfolding(crate::specs::Code::include_line))]
fn put_include(out: &mut Vec<u8>) -> Result<(), AllocError>
    ensures { OnOk result (out.new.items ≡ out.old.items ++ include_line) }
{
    out.extend_from_slice(b"#include \"AutoGen.h\"\n")?;
    Ok(())
}

/// AutoGen.c, with these names of GUIDs.
#[tactic(auto, unfolding(crate::specs::Code::source_text))]
pub(crate) fn source_text(
    alloc: Global,
    ask: &CodeAsk,
    named: &[FoundGuid<'_>],
) -> Result<Text, WantOfMemory>
    ensures { IfOk result (λ t. t ≡ source_text ask.now (seen named.now)) }
{
    let mut out = Vec::new(alloc);
    put_title(&mut out, &ask.parts.module)?;
    put_include(&mut out)?;
    put_named(alloc, &mut out, named)?;
    put_constructors(&mut out, &ask.choice)?;
    put_destructors(&mut out, &ask.choice)?;
    put_entry_points(&mut out, ask.parts.infs.items())?;
    Ok(Text::from_vec(out))
}
