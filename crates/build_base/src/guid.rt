//! GUIDs, as the UEFI specification lays them out in memory.
ghost use Rattle.std.specs.Prelude.{◌≡◌};
ghost use Rattle.build_base.specs.Guid.{guid_of};

use uuid::Uuid;

/// Sixteen bytes: u32, u16 and u16 little-endian, then eight bytes (UEFI specification, appendix
/// A).
#[derive(Clone, Copy, Debug, PartialEq, Eq)]
pub struct Guid(pub [u8; 16]);

impl Guid {
    /// The GUID of a hyphenated registry text.
    #[tactic(auto, unfolding(crate::specs::Guid::guid_of))]
    pub fn of_text(text: &[u8]) -> Option<Guid>
        ensures { result ≡ guid_of text.now }
    {
        if text.len() != 36 {
            return None;
        }
        match Uuid::try_parse_ascii(text) {
            Ok(id) => Some(Guid(id.to_bytes_le())),
            Err(_) => None,
        }
    }
}
