//! Alignments of sections and of files.
ghost use Rattle.std.specs.Prelude.{◌≡◌, ℕ, ◌≤◌, ◌<◌, ◌^◌, ◌%◌, ◌↔◌, IsTrue, IfSome, None, position, nat_le, slice_index};
ghost use Rattle.build_base.specs.Least.{IsLeast};
ghost use Rattle.ffs_sections.specs.Alignment.{IsPad, is_section_alignment, pad_of, alignments, is_alignment, IsAlignment, alignment_index, step_bits};

static POWERS: [u32; 25] = [
    1, 2, 4, 8, 16, 32, 64, 128, 256, 512, 1024, 2048, 4096, 8192, 16384, 32768, 65536, 131072,
    262144, 524288, 1048576, 2097152, 4194304, 8388608, 16777216,
];

static ALIGNMENTS: [u32; 16] = [
    1, 16, 128, 512, 1024, 4096, 32768, 65536, 131072, 262144, 524288, 1048576, 2097152, 4194304,
    8388608, 16777216,
];

/// Whether this is a power of two of at most 16M.
#[tactic(auto, unfolding(crate::specs::Alignment::is_section_alignment))]
pub fn is_section_alignment(align: u32) -> bool
    ensures { result ≡ is_section_alignment align }
{
    POWERS.contains(&align)
}

/// The size in bytes of the least pad that aligns what stands at a place, less a shift.
pub fn pad(place: u64, align: u32, shift: u32) -> Option<u64>
    requires { IsTrue (is_section_alignment align) }
    ensures value { result ≡ pad_of place align shift }
    ensures four { IfSome result (λ p. p % 4 ≡ 0) }
    ensures small { IfSome result (λ p. p < 2 ^ 24) }
    ensures least { IfSome result (IsLeast (IsPad place align shift)) }
    ensures none { result ≡ None → (size : ℕ) → ¬ IsPad place align shift size }
{
    let align = align as u64;
    let size = (shift as u64 % align + (align - place % align)) % align;
    if size % 4 == 0 { Some(size) } else { None }
}

/// The index of the least alignment of a file's header that is at least this.
#[tactic(auto, unfolding(crate::specs::Alignment::alignment_index))]
pub fn alignment_index(align: u32) -> usize
    ensures value { result ≡ alignment_index align }
    ensures below { result < 16 }
{
    match first_from(align) {
        Some(step) => step,
        None => 15,
    }
}

fn first_from(align: u32) -> Option<usize>
    ensures value { result ≡ position (λ stated. nat_le align stated) alignments }
    ensures below { IfSome result (λ step. step < 16) }
{
    ALIGNMENTS.iter().position(|stated| align <= *stated)
}

/// Whether a file's header can state this alignment.
pub fn is_file_alignment(align: u32) -> bool
    ensures value { result ≡ is_alignment align }
    ensures stated { IsTrue result ↔ IsAlignment align }
{
    ALIGNMENTS.contains(&align)
}

/// The alignment of this index, in bytes.
pub(crate) fn step_align(step: usize) -> u32
    requires { step < 16 }
    ensures value { result ≡ slice_index alignments step }
    ensures known { IsAlignment result }
{
    ALIGNMENTS[step]
}

/// The bits of this index in a file's attributes.
pub fn step_bits(step: usize) -> u8
    requires { step < 16 }
    ensures value { result ≡ step_bits step }
    ensures small { result ≤ 58 }
{
    if step < 8 {
        step as u8 * 8
    } else {
        (step as u8 - 8) * 8 + 2
    }
}
