//! The name of a platform.
ghost use Rattle.std.specs.Prelude.{◌≡◌, ◌++◌, IfOk, codes};
ghost use Rattle.build_base.specs.Answer.{Answers};
ghost use Rattle.build_base.specs.Path.{IsPathField};
ghost use Rattle.doc_reading.specs.SegmentNames.{IsSegmentName, segment_name};

use build_base::{Path, Place, Refusal, Text, WantOfMemory};
use doc_reading::segment_name::{SegmentName, segment_name};
use std::alloc::Global;
use std::marker::Model;

/// A name that can stand in a path: one segment of at most 64 bytes.
#[derive(Drop)]
pub struct PlatformName {
    name: SegmentName,
}

impl Model for PlatformName {
    ghost use Rattle.std.specs.Prelude.{List, ℕ};

    ghost Value = { List ℕ };

    ghost use Rattle.doc_reading.specs.SegmentNames.{IsSegmentName};

    ghost view = { λ n. n.name };

    ghost invariant = { λ n. IsSegmentName n.name };
}

/// The name that a field states.
#[tactic(auto, using(crate::proofs::ShapeLemmas::named_ok))]
pub fn platform_name(alloc: Global, at: &Place, text: &[u8]) -> Result<PlatformName, Refusal>
    ensures { Answers result (segment_name at.now text.now) }
{
    let name = segment_name(alloc, at, text)?;
    Ok(PlatformName { name })
}

impl PlatformName {
    /// Its text.
    pub fn into_text(self) -> Text
        ensures text { result ≡ self }
        ensures form { IsSegmentName result }
    {
        self.name.into_text()
    }

    /// The folder of the outputs of a platform that states none.
    #[tactic(auto, using(crate::proofs::ShapeLemmas::folder_fits))]
    pub fn folder(&self, alloc: Global) -> Result<Path, WantOfMemory>
        ensures path { IfOk result (λ p. p ≡ codes "Build/" ++ self.now) }
        ensures form { IfOk result (λ p. IsPathField p) }
    {
        let folder = self.name.folder(alloc)?;
        Ok(folder)
    }
}
