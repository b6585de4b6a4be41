//! The files of the workspace.
ghost use Rattle.std.specs.Prelude.{◌≡◌, ◌++◌, ◌∷◌, [], OnOk, IfOk, codes};
ghost use Rattle.selftest_tree.specs.Texts.{for_each, package_text};
ghost use Rattle.selftest_tree.specs.Tree.{held, module_file, selftest_files};

use crate::constant_texts::put_package;
use crate::module::{module_path, module_text};
use crate::numbered_texts::{flash_text, platform_text};
use build_base::memory_tree::Held;
use build_base::path::path_field;
use build_base::{Rows, Text, WantOfMemory};
use std::alloc::Global;

fn package_text(alloc: Global) -> Result<Text, WantOfMemory>
    ensures { IfOk result (λ t. t ≡ package_text) }
{
    let mut out = Vec::new(alloc);
    put_package(&mut out)?;
    Ok(Text::from_vec(out))
}

// Adds a file.
fn push_file(
    alloc: Global,
    files: &mut Rows<Held>,
    path: &[u8],
    bytes: Text,
) -> Result<(), WantOfMemory>
    ensures { OnOk result (files.new ≡ files.old ++ held path.now bytes ∷ []) }
{
    match path_field(alloc, path)? {
        Some(path) => files.push(Held { path, bytes }),
        None => Err(WantOfMemory),
    }
}

fn push_module(alloc: Global, files: &mut Rows<Held>, k: u64) -> Result<(), WantOfMemory>
    ensures { OnOk result (files.new ≡ files.old ++ module_file k) }
{
    let path = module_path(alloc, k)?;
    let bytes = module_text(alloc, b"TRUE", k)?;
    files.push(Held { path, bytes })
}

#[tactic(auto, unfolding(crate::specs::Texts::for_each))]
fn push_modules(alloc: Global, files: &mut Rows<Held>, n: u64) -> Result<(), WantOfMemory>
    ensures { OnOk result (files.new ≡ files.old ++ for_each module_file n) }
{
    let mut k = 0;
    while k < n {
        push_module(alloc, files, k)?;
        k += 1;
    }
    Ok(())
}

/// The files of the workspace with n modules.
#[tactic(auto, unfolding(crate::specs::Tree::selftest_files))]
pub fn selftest_files(alloc: Global, n: u64) -> Result<Rows<Held>, WantOfMemory>
    ensures { IfOk result (λ files. files ≡ selftest_files n) }
{
    let mut files = Rows::new(alloc);
    push_file(alloc, &mut files, b"T.dec", package_text(alloc)?)?;
    push_file(alloc, &mut files, b"T.dsc", platform_text(alloc, n)?)?;
    push_file(alloc, &mut files, b"T.fdf", flash_text(alloc, n)?)?;
    push_modules(alloc, &mut files, n)?;
    Ok(files)
}
