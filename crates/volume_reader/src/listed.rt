//! What a volume holds, as it is read.
use build_base::{Guid, Rows, WantOfMemory};
use thiserror::Error;

/// A volume: its length in bytes, whether its file system is FFS3 and not FFS2, its files in order,
/// pad files among them, and how many bytes are free behind them.
#[derive(Drop)]
pub struct VolumeList {
    pub length: u64,
    pub ffs3: bool,
    pub files: Rows<Listed>,
    pub free: u64,
}

/// A file: where it stands in its volume, its name and its type. `size` counts its header. A file
/// whose body isn't a list of sections has none.
#[derive(Drop)]
pub struct Listed {
    pub place: u64,
    pub guid: Guid,
    pub file_type: u8,
    pub size: u64,
    pub sections: Rows<ListedSection>,
}

/// A section. `size` counts its header, and `start` is the place of its content in the volume.
#[derive(Drop)]
pub struct ListedSection {
    pub kind: u8,
    pub size: u64,
    pub start: u64,
}

/// Why a volume isn't listed: the place in it of its first wrong file, or want of memory.
#[derive(Debug, Drop, Error)]
pub enum ReadRefusal {
    #[error("no file stands at {0}")]
    BadFile(u64),
    #[error("want of memory")]
    WantOfMemory,
}

impl From<WantOfMemory> for ReadRefusal {
    ghost use Rattle.std.specs.Prelude.{◌≡◌};
    ghost use Rattle.volume_reader.specs.declared.listed.ReadRefusal.TheVariants.{WantOfMemory as Wanting};

    ghost from_gives = { λ _ e. e ≡ Wanting };

    fn from(_: WantOfMemory) -> ReadRefusal {
        ReadRefusal::WantOfMemory
    }
}
