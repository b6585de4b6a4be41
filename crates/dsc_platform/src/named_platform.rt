//! A platform whose name and folder of outputs can stand in paths.
ghost use Rattle.std.specs.Prelude.{◌≡◌};
ghost use Rattle.build_base.specs.Path.{IsPathField};
ghost use Rattle.doc_reading.specs.SegmentNames.{IsSegmentName};

use doc_types::platform::PlatformDoc;
use std::marker::Model;

/// The document of such a platform.
#[derive(Drop)]
pub(crate) struct NamedPlatform {
    pub document: PlatformDoc,
}

impl Model for NamedPlatform {
    ghost use Rattle.doc_types.specs.declared.platform.PlatformDoc.{PlatformDoc as Described};

    ghost Value = { Described };

    ghost use Rattle.build_base.specs.Path.{IsPathField};
    ghost use Rattle.doc_reading.specs.SegmentNames.{IsSegmentName};

    ghost view = { λ p. p.document };

    ghost invariant = { λ p. IsSegmentName p.document.name × IsPathField p.document.output };
}

impl NamedPlatform {
    /// The document.
    pub(crate) fn into_document(self) -> PlatformDoc
        ensures value { result ≡ self }
        ensures name { IsSegmentName result.name }
        ensures output { IsPathField result.output }
    {
        self.document
    }
}
