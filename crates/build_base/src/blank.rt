//! Bytes of erased flash.
ghost use Rattle.std.specs.Prelude.{◌≡◌, ◌≤◌, length, replicate, if◌then◌else◌};
ghost use Rattle.build_base.specs.Runs.{free_byte};

/// The most bytes of a piece.
pub(crate) const PIECE: usize = 0x1_0000;

static ZEROS: [u8; 0x1_0000] = [0x00; 0x1_0000];

static ONES: [u8; 0x1_0000] = [0xFF; 0x1_0000];

/// The byte of erased flash under this erase polarity.
pub fn free_byte(erase: u8) -> u8
    ensures { result ≡ free_byte erase }
{
    if erase == 0 { 0x00 } else { 0xFF }
}

/// So many bytes of erased flash, out of a constant block.
pub(crate) fn blank_bytes(ones: bool, size: usize) -> &'static [u8]
    requires { size ≤ 65536 }
    ensures { result.now ≡ replicate size (if ones then 255 else 0) }
{
    if ones { &ONES[..size] } else { &ZEROS[..size] }
}
