//! Names of platforms and packages.
ghost use Rattle.std.specs.Prelude.{◌≡◌, ◌==◌, ◌++◌, IfOk, codes};
ghost use Rattle.std.specs.List.{list_any};
ghost use Rattle.build_base.specs.Answer.{Answers};
ghost use Rattle.doc_reading.specs.SegmentNames.{is_segment_name, segment_name};

use build_base::fault_codes::BAD_PATH;
use build_base::path::is_path;
use build_base::{Path, PathRefusal, Place, Refusal, Text, WantOfMemory, refuse};
use std::alloc::Global;
use std::marker::Model;

/// A name: one segment of a path, of at most 64 bytes.
#[derive(Drop)]
pub struct SegmentName {
    text: Text,
}

impl Model for SegmentName {
    ghost use Rattle.std.specs.Prelude.{List, ℕ};

    ghost Value = { List ℕ };

    ghost use Rattle.doc_reading.specs.SegmentNames.{IsSegmentName};

    ghost view = { λ n. n.text };

    ghost invariant = { λ n. IsSegmentName n.text };
}

fn has_slash(text: &[u8]) -> bool
    ensures { result ≡ list_any (λ b. b == 47) text.now }
{
    text.iter().any(|byte| *byte == b'/')
}

#[tactic(auto, unfolding(crate::specs::SegmentNames::is_segment_name))]
fn is_segment_name(text: &[u8]) -> bool
    ensures { result ≡ is_segment_name text.now }
{
    text.len() <= 64 && !has_slash(text) && is_path(text)
}

/// The name that a field states.
pub fn segment_name(alloc: Global, at: &Place, text: &[u8]) -> Result<SegmentName, Refusal>
    ensures { Answers result (segment_name at.now text.now) }
{
    if !is_segment_name(text) {
        return Err(refuse(alloc, BAD_PATH, at, text));
    }
    Ok(SegmentName {
        text: Text::of(alloc, text)?,
    })
}

impl SegmentName {
    /// Its text.
    pub fn into_text(self) -> Text
        ensures { result ≡ self }
    {
        self.text
    }

    /// The folder of a platform's outputs where it states none.
    #[tactic(auto, using(crate::proofs::SegmentNameLemmas::folder_is_path))]
    pub fn folder(&self, alloc: Global) -> Result<Path, WantOfMemory>
        ensures { IfOk result (λ p. p ≡ codes "Build/" ++ self.now) }
    {
        let mut text = Vec::from_slice(alloc, b"Build/")?;
        text.extend_from_slice(self.text.bytes())?;
        match Path::new(alloc, text.as_slice()) {
            Ok(path) => Ok(path),
            Err(PathRefusal::BadPath) => unreachable!(),
            Err(PathRefusal::WantOfMemory) => Err(WantOfMemory),
        }
    }
}
