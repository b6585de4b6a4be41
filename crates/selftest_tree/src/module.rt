//! A module by its number.
ghost use Rattle.std.specs.Prelude.{◌≡◌, ◌<◌, ◌≤◌, ◌++◌, ◌∷◌, [], OnOk, IfOk, codes, decimal};
ghost use Rattle.selftest_tree.specs.Texts.{hex_digit, hex_digits, module_path, module_head, module_text};
ghost use Rattle.selftest_tree.specs.Tree.{edited_text};

use crate::constant_texts::{put_guid_front, put_module_back, put_module_front};
use build_base::{Path, Text, WantOfMemory};
use itoa::Buffer;
use std::alloc::{AllocError, Global};

fn put_number(out: &mut Vec<u8>, k: u64) -> Result<(), AllocError>
    ensures { OnOk result (out.new.items ≡ out.old.items ++ decimal k) }
{
    let mut digits = Buffer::new();
    out.extend_from_slice(digits.format(k).as_bytes())?;
    Ok(())
}

fn hex_digit(n: u8) -> u8
    requires { n < 16 }
    ensures { result ≡ hex_digit n }
{
    if n < 10 { b'0' + n } else { b'A' + (n - 10) }
}

fn put_digit(out: &mut Vec<u8>, n: u8) -> Result<(), AllocError>
    requires { n < 16 }
    ensures { OnOk result (out.new.items ≡ out.old.items ++ hex_digit n ∷ []) }
{
    out.extend_from_slice(&[hex_digit(n)])
}

// Adds the last digits of a number in base 16.
#[tactic(auto, unfolding(crate::specs::Texts::hex_digits))]
fn put_hex(out: &mut Vec<u8>, count: u8, k: u64) -> Result<(), AllocError>
    ensures { OnOk result (out.new.items ≡ out.old.items ++ hex_digits count k) }
{
    if count == 0 {
        return Ok(());
    }
    put_hex(out, count - 1, k / 16)?;
    put_digit(out, (k % 16) as u8)?;
    Ok(())
}

/// Adds the path of a module.
#[tactic(auto, unfolding(crate::specs::Texts::module_path))]
pub(crate) fn put_module_path(out: &mut Vec<u8>, k: u64) -> Result<(), AllocError>
    ensures { OnOk result (out.new.items ≡ out.old.items ++ module_path k) }
{
    out.extend_from_slice(b"m")?;
    put_number(out, k)?;
    out.extend_from_slice(b".inf")?;
    Ok(())
}

#[tactic(auto, unfolding(crate::specs::Texts::module_head))]
fn put_module_head(out: &mut Vec<u8>, k: u64) -> Result<(), AllocError>
    ensures { OnOk result (out.new.items ≡ out.old.items ++ module_head k) }
{
    put_module_front(out)?;
    put_number(out, k)?;
    put_guid_front(out)?;
    put_hex(out, 12, k)?;
    Ok(())
}

// Adds a module.
#[tactic(auto, unfolding(crate::specs::Texts::module_text))]
fn put_module(out: &mut Vec<u8>, word: &[u8], k: u64) -> Result<(), AllocError>
    ensures { OnOk result (out.new.items ≡ out.old.items ++ module_text word.now k) }
{
    put_module_head(out, k)?;
    put_module_back(out)?;
    out.extend_from_slice(word)?;
    out.extend_from_slice(b"\n")?;
    Ok(())
}

/// The text of a module, whose dependency expression is this word.
pub(crate) fn module_text(alloc: Global, word: &[u8], k: u64) -> Result<Text, WantOfMemory>
    ensures { IfOk result (λ t. t ≡ module_text word.now k) }
{
    let mut out = Vec::new(alloc);
    put_module(&mut out, word, k)?;
    Ok(Text::from_vec(out))
}

/// The text of the first module after its edit.
pub fn edited_text(alloc: Global) -> Result<Text, WantOfMemory>
    ensures { IfOk result (λ t. t ≡ edited_text) }
{
    module_text(alloc, b"FALSE", 0)
}

fn path_text(alloc: Global, k: u64) -> Result<Text, WantOfMemory>
    ensures { IfOk result (λ t. t ≡ module_path k) }
{
    let mut out = Vec::new(alloc);
    put_module_path(&mut out, k)?;
    Ok(Text::from_vec(out))
}

/// The path of a module.
pub fn module_path(alloc: Global, k: u64) -> Result<Path, WantOfMemory>
    ensures { IfOk result (λ p. p ≡ module_path k) }
{
    match Path::of_text(path_text(alloc, k)?) {
        Some(path) => Ok(path),
        None => Err(WantOfMemory),
    }
}
