//! The packed form of keys.
ghost use Rattle.std.specs.Prelude.{◌≡◌, ◌++◌, IfOk, OnOk};
ghost use Rattle.step_pack.specs.Packed.{packed_number, packed_path, packed_module, packed};

use crate::key::Key;
use crate::order::arch_byte;
use build_base::{Text, WantOfMemory};
use doc_types::choice::Module;
use std::alloc::Global;

fn push_number(bytes: &mut Vec<u8>, number: u32) -> Result<(), WantOfMemory>
    ensures { OnOk result (bytes.new.items ≡ bytes.old.items ++ packed_number number) }
{
    bytes.extend_from_slice(number.to_le_bytes().as_slice())?;
    Ok(())
}

fn push_path(bytes: &mut Vec<u8>, path: &[u8]) -> Result<(), WantOfMemory>
    ensures { OnOk result (bytes.new.items ≡ bytes.old.items ++ packed_path path.now) }
{
    bytes.extend_from_slice((path.len() as u64).to_le_bytes().as_slice())?;
    bytes.extend_from_slice(path)?;
    Ok(())
}

fn push_module(bytes: &mut Vec<u8>, built: &Module) -> Result<(), WantOfMemory>
    ensures { OnOk result (bytes.new.items ≡ bytes.old.items ++ packed_module built.now) }
{
    let arch = [arch_byte(built.arch)];
    bytes.extend_from_slice(arch.as_slice())?;
    push_path(bytes, built.inf.bytes())
}

/// The packed form of a key. Each key has one.
#[tactic(auto, unfolding(crate::specs::Packed::packed))]
pub fn pack_key(alloc: Global, key: &Key) -> Result<Text, WantOfMemory>
    ensures { IfOk result (λ text. text ≡ packed key.now) }
{
    let variant = [key.variant()];
    let mut bytes = Vec::from_slice(alloc, variant.as_slice())?;
    match key {
        Key::Dec(path) | Key::Inf(path) => push_path(&mut bytes, path.bytes())?,
        Key::Choice(module) | Key::Values(module) | Key::Code(module) | Key::Depex(module) => {
            push_module(&mut bytes, module)?
        }
        Key::File(volume, item) => {
            push_number(&mut bytes, *volume)?;
            push_number(&mut bytes, *item)?;
        }
        Key::Volume(number) | Key::Device(number) | Key::Based(number) => {
            push_number(&mut bytes, *number)?
        }
        Key::Platform | Key::Flash | Key::PlatformPcds | Key::Report | Key::All | Key::Vpd => {}
    }
    Ok(Text::from_vec(bytes))
}
