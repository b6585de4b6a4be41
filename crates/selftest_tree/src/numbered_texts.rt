//! The texts that have a line for each module.
ghost use Rattle.std.specs.Prelude.{◌≡◌, ◌++◌, OnOk, IfOk};
ghost use Rattle.selftest_tree.specs.Texts.{for_each, component_line, inf_line, platform_text, flash_text};

use crate::constant_texts::{put_device, put_platform_front, put_rule};
use crate::module::put_module_path;
use build_base::{Text, WantOfMemory};
use std::alloc::{AllocError, Global};

#[tactic(auto, unfolding(crate::specs::Texts::component_line))]
fn put_component(out: &mut Vec<u8>, k: u64) -> Result<(), AllocError>
    ensures { OnOk result (out.new.items ≡ out.old.items ++ component_line k) }
{
    put_module_path(out, k)?;
    out.extend_from_slice(b"\n")?;
    Ok(())
}

#[tactic(auto, unfolding(crate::specs::Texts::for_each))]
fn put_components(out: &mut Vec<u8>, n: u64) -> Result<(), AllocError>
    ensures { OnOk result (out.new.items ≡ out.old.items ++ for_each component_line n) }
{
    let mut k = 0;
    while k < n {
        put_component(out, k)?;
        k += 1;
    }
    Ok(())
}

#[tactic(auto, unfolding(crate::specs::Texts::inf_line))]
fn put_inf(out: &mut Vec<u8>, k: u64) -> Result<(), AllocError>
    ensures { OnOk result (out.new.items ≡ out.old.items ++ inf_line k) }
{
    out.extend_from_slice(b"INF ")?;
    put_component(out, k)?;
    Ok(())
}

#[tactic(auto, unfolding(crate::specs::Texts::for_each))]
fn put_infs(out: &mut Vec<u8>, n: u64) -> Result<(), AllocError>
    ensures { OnOk result (out.new.items ≡ out.old.items ++ for_each inf_line n) }
{
    let mut k = 0;
    while k < n {
        put_inf(out, k)?;
        k += 1;
    }
    Ok(())
}

/// The platform.
#[tactic(auto, unfolding(crate::specs::Texts::platform_text))]
pub(crate) fn platform_text(alloc: Global, n: u64) -> Result<Text, WantOfMemory>
    ensures { IfOk result (λ t. t ≡ platform_text n) }
{
    let mut out = Vec::new(alloc);
    put_platform_front(&mut out)?;
    put_components(&mut out, n)?;
    Ok(Text::from_vec(out))
}

/// The flash description.
#[tactic(auto, unfolding(crate::specs::Texts::flash_text))]
pub(crate) fn flash_text(alloc: Global, n: u64) -> Result<Text, WantOfMemory>
    ensures { IfOk result (λ t. t ≡ flash_text n) }
{
    let mut out = Vec::new(alloc);
    put_device(&mut out)?;
    out.extend_from_slice(b"[FV.TFV]\n")?;
    put_infs(&mut out, n)?;
    put_rule(&mut out)?;
    Ok(Text::from_vec(out))
}
