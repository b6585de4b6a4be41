//! The checksums of a file.
ghost use Rattle.std.specs.Prelude.{◌≡◌, ◌+◌, ◌%◌, sum, slice_set};
ghost use Rattle.ffs_sections.specs.Sums.{zero_byte, blank_head, header_sum};

// The sum of some bytes modulo 256.
fn sum_of(bytes: &[u8]) -> u8
    ensures { result ≡ sum bytes.now % 256 }
{
    let mut total: u8 = 0;
    for byte in bytes {
        total = total.wrapping_add(*byte);
    }
    total
}

/// The file checksum of a body under the attribute CHECKSUM.
#[tactic(auto, unfolding(crate::specs::Sums::zero_byte))]
pub fn body_sum(body: &[u8]) -> u8
    ensures value { result ≡ zero_byte body.now }
    ensures zero { (sum body.now + result) % 256 ≡ 0 }
{
    sum_of(body).wrapping_neg()
}

/// The header checksum, at byte 16 of the header.
pub fn header_sum(head: &[u8; 24]) -> u8
    ensures value { result ≡ header_sum head.now }
    ensures zero { sum (slice_set (blank_head head.now) 16 result) % 256 ≡ 0 }
{
    let mut blank = *head;
    blank[16] = 0;
    blank[17] = 0;
    blank[23] = 0;
    body_sum(&blank)
}

/// The header checksum of a large file, at byte 16 of the header.
pub fn header_sum_long(head: &[u8; 32]) -> u8
    ensures value { result ≡ header_sum head.now }
    ensures zero { sum (slice_set (blank_head head.now) 16 result) % 256 ≡ 0 }
{
    let mut long = *head;
    long[16] = 0;
    long[17] = 0;
    long[23] = 0;
    body_sum(&long)
}
