//! Little-endian numbers at places of a file.
ghost use Rattle.std.specs.Prelude.{◌≡◌, ◌≤◌, ◌+◌, length};
ghost use Rattle.te_images.specs.Pe.{number_at};

use byteorder::{ByteOrder, LittleEndian};

#[tactic(auto, unfolding(crate::specs::Pe::number_at))]
pub fn u16_at(file: &[u8], at: u64) -> u16
    requires { at + 2 ≤ length file.now }
    ensures { result ≡ number_at 2 at file.now }
{
    LittleEndian::read_u16(&file[at as usize..])
}

#[tactic(auto, unfolding(crate::specs::Pe::number_at))]
pub fn u32_at(file: &[u8], at: u64) -> u32
    requires { at + 4 ≤ length file.now }
    ensures { result ≡ number_at 4 at file.now }
{
    LittleEndian::read_u32(&file[at as usize..])
}

#[tactic(auto, unfolding(crate::specs::Pe::number_at))]
pub fn u64_at(file: &[u8], at: u64) -> u64
    requires { at + 8 ≤ length file.now }
    ensures { result ≡ number_at 8 at file.now }
{
    LittleEndian::read_u64(&file[at as usize..])
}
