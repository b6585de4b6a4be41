//! Where the files of a build stand.
ghost use Rattle.std.specs.Prelude.{◌≡◌, IfOk};
ghost use Rattle.build_stages.specs.Gives.{GivesIn};
ghost use Rattle.step_answers.specs.Folders.{path_below, folder_name, output_folder, build_folder};

use build_base::path::path_field;
use build_base::{Path, Text, WantOfMemory};
use build_stages::Stop;
use job_fields::macros::{tag_in, target_in};
use std::alloc::Global;
use step_pack::Key;

/// The most bytes that the path of an output may have.
const LONGEST: usize = 2048;

/// The path of a file in a folder.
#[tactic(auto, unfolding(crate::specs::Folders::path_below))]
pub fn path_below(alloc: Global, folder: &Path, rest: &[u8]) -> Result<Path, Stop<Key>>
    ensures { GivesIn (λ path. path) result (path_below folder.now rest.now) }
{
    match path_field(alloc, rest)? {
        Some(rest) => {
            if folder.bytes().len() + 1 + rest.bytes().len() <= LONGEST {
                return Ok(folder.join(alloc, &rest)?);
            }
            Err(Stop::ImpossibleAnswer)
        }
        None => Err(Stop::ImpossibleAnswer),
    }
}

fn folder_name(alloc: Global, target: &[u8], tag: &[u8]) -> Result<Vec<u8>, WantOfMemory>
    ensures { IfOk result (λ name. name.items ≡ folder_name target.now tag.now) }
{
    let mut name = Vec::from_slice(alloc, target_in(target))?;
    name.extend_from_slice(b"_")?;
    name.extend_from_slice(tag_in(tag))?;
    Ok(name)
}

/// The folder of all outputs: the stated one, and in it that of the target and the tool chain.
pub fn output_folder(
    alloc: Global,
    output: &Path,
    target: &[u8],
    tag: &[u8],
) -> Result<Path, Stop<Key>>
    ensures { GivesIn (λ path. path) result (output_folder output.now target.now tag.now) }
{
    let name = folder_name(alloc, target, tag)?;
    path_below(alloc, output, name.as_slice())
}

/// The same as a text, whatever its length.
#[tactic(auto, unfolding(crate::specs::Folders::build_folder))]
pub fn build_folder(
    alloc: Global,
    output: &Path,
    target: &[u8],
    tag: &[u8],
) -> Result<Text, WantOfMemory>
    ensures { IfOk result (λ folder. folder ≡ build_folder output.now target.now tag.now) }
{
    let name = folder_name(alloc, target, tag)?;
    let mut folder = Vec::from_slice(alloc, output.bytes())?;
    folder.extend_from_slice(b"/")?;
    folder.extend_from_slice(name.as_slice())?;
    Ok(Text::from_vec(folder))
}
