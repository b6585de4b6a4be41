//! Conjunctions without repeats.
ghost use Rattle.std.specs.Prelude.{◌≡◌, [], not, fold, IfOk, OnOk};
ghost use Rattle.std.specs.List.{list_any};
ghost use Rattle.std.specs.Str.{bytes_eq};
ghost use Rattle.depex_code.specs.Tree.{with_guid};
ghost use Rattle.depex_code.specs.Kept.{guids_view};
ghost use Rattle.depex_code.specs.SizedJoins.{and_guid, and_bytes};

use crate::make::{put, put_guid};
use crate::opcode::{AND, PUSH, TRUE};
use build_base::{Guid, WantOfMemory};
use indexmap::IndexSet;
use std::alloc::Global;

// Whether a GUID was put, since it wasn't there.
fn add(seen: &mut IndexSet<[u8; 16]>, guid: [u8; 16]) -> Result<bool, WantOfMemory>
    ensures keys { OnOk result (seen.new.keys ≡ with_guid seen.old.keys guid) }
    ensures added { IfOk result (λ added. added ≡ not (list_any (bytes_eq guid) seen.old.keys)) }
{
    match seen.insert(guid) {
        Ok(added) => Ok(added),
        Err(_) => Err(WantOfMemory),
    }
}

fn and_guid(bytes: &mut Vec<u8>, guid: Guid) -> Result<(), WantOfMemory>
    ensures { OnOk result (bytes.new.items ≡ and_guid bytes.old.items guid.0) }
{
    if bytes.is_empty() {
        return put_guid(bytes, PUSH, guid);
    }
    put_guid(bytes, PUSH, guid)?;
    put(bytes, AND)?;
    Ok(())
}

// One more GUID, where it isn't among those before it.
fn and_new(
    seen: &mut IndexSet<[u8; 16]>,
    bytes: &mut Vec<u8>,
    guid: Guid,
) -> Result<(), WantOfMemory>
    ensures keys { OnOk result (seen.new.keys ≡ with_guid seen.old.keys guid.0) }
    ensures bytes { bytes.old.items ≡ fold and_guid [] seen.old.keys
        → OnOk result (bytes.new.items ≡ fold and_guid [] seen.new.keys) }
{
    if add(seen, guid.0)? {
        and_guid(bytes, guid)?;
    }
    Ok(())
}

fn each_once(alloc: Global, guids: &[Guid]) -> Result<Vec<u8>, WantOfMemory>
    ensures { IfOk result
        (λ v. v.items ≡ fold and_guid [] (fold with_guid [] (guids_view guids.now))) }
{
    let mut seen = IndexSet::new(alloc);
    let mut bytes = Vec::new(alloc);
    let mut left = guids;
    while let [guid, rest @ ..] = left {
        and_new(&mut seen, &mut bytes, *guid)?;
        left = rest;
    }
    Ok(bytes)
}

/// The postfix form of the GUIDs, each at its first place alone, joined from the left by AND; TRUE
/// where there is none.
pub(crate) fn conjunction(alloc: Global, guids: &[Guid]) -> Result<Vec<u8>, WantOfMemory>
    ensures { IfOk result (λ v. v.items ≡ and_bytes (guids_view guids.now)) }
{
    let mut bytes = each_once(alloc, guids)?;
    if bytes.is_empty() {
        put(&mut bytes, TRUE)?;
    }
    Ok(bytes)
}
