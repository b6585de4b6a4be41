//! The keys of [Defines].
ghost use Rattle.std.specs.Prelude.{◌≡◌};
ghost use Rattle.inf_docs.specs.Keys.{key_named};

use meta_lexer::lookup;

/// A key of [Defines] that is read.
#[derive(Clone, Copy, PartialEq, Eq)]
pub(crate) enum ModuleKey {
    BaseName,
    FileGuid,
    Kind,
    Version,
    EntryPoint,
    Constructor,
    Destructor,
    LibraryClass,
}

const KEYS: [(&[u8], ModuleKey); 8] = [
    (b"BASE_NAME", ModuleKey::BaseName),
    (b"FILE_GUID", ModuleKey::FileGuid),
    (b"MODULE_TYPE", ModuleKey::Kind),
    (b"VERSION_STRING", ModuleKey::Version),
    (b"ENTRY_POINT", ModuleKey::EntryPoint),
    (b"CONSTRUCTOR", ModuleKey::Constructor),
    (b"DESTRUCTOR", ModuleKey::Destructor),
    (b"LIBRARY_CLASS", ModuleKey::LibraryClass),
];

/// The key of a word. Keys are compared without regard to ASCII case.
#[tactic(auto, unfolding(crate::specs::Keys::key_named))]
pub fn key_named(word: &[u8]) -> Option<ModuleKey>
    ensures { result ≡ key_named word.now }
{
    lookup(&KEYS, word)
}
