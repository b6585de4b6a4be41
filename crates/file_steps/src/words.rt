//! The content of a section that a text gives (UEFI PI specification, volume 3, section 3.2.5; EDK
//! II FDF specification, FILE statements).
ghost use Rattle.std.specs.Prelude.{◌≡◌, ◌++◌, ◌∷◌, [], IfOk, OnOk};
ghost use Rattle.std.specs.List.{flat_map};
ghost use Rattle.file_steps.specs.Words.{wide_text, words_bytes};

use build_base::{Text, WantOfMemory};
use doc_types::standard::EFI_SECTION_VERSION;
use std::alloc::Global;

fn push_unit(out: &mut Vec<u8>, byte: u8) -> Result<(), WantOfMemory>
    ensures { OnOk result (out.new.items ≡ out.old.items ++ byte ∷ 0 ∷ []) }
{
    out.extend_from_slice(&[byte, 0])?;
    Ok(())
}

fn push_units(out: &mut Vec<u8>, text: &[u8]) -> Result<(), WantOfMemory>
    ensures { OnOk result (out.new.items ≡ out.old.items
        ++ flat_map (λ byte. byte ∷ 0 ∷ []) text.now) }
{
    let mut left = text;
    while let [byte, rest @ ..] = left {
        push_unit(out, *byte)?;
        left = rest;
    }
    Ok(())
}

// Appends a text of 16-bit units and a final zero.
#[tactic(auto, unfolding(crate::specs::Words::wide_text))]
fn push_wide(out: &mut Vec<u8>, text: &[u8]) -> Result<(), WantOfMemory>
    ensures { OnOk result (out.new.items ≡ out.old.items ++ wide_text text.now) }
{
    push_units(out, text)?;
    out.extend_from_slice(&[0, 0])?;
    Ok(())
}

/// The content of a section that a text gives; that of a version section begins with the build
/// number.
pub fn words_bytes(alloc: Global, kind: u8, number: u16, text: &[u8]) -> Result<Text, WantOfMemory>
    ensures { IfOk result (λ t. t ≡ words_bytes kind number text.now) }
{
    let mut out = Vec::new(alloc);
    if kind == EFI_SECTION_VERSION {
        out.extend_from_slice(&number.to_le_bytes())?;
        push_wide(&mut out, text)?;
        return Ok(Text::from_vec(out));
    }
    push_wide(&mut out, text)?;
    Ok(Text::from_vec(out))
}
