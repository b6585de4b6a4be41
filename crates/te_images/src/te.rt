//! The header of a TE image, and the file from its section table on.
ghost use Rattle.std.specs.Prelude.{◌≡◌, ◌≤◌, length, drop, IfOk};
ghost use Rattle.te_images.specs.Headers.{AreHeaders};
ghost use Rattle.te_images.specs.Pe.{section_table, number_of_sections, subsystem};
ghost use Rattle.te_images.specs.Te.{te_limits, te_head_of, te_of, te_bytes, front_bytes, directory_bytes};
ghost use Rattle.build_base.specs.First.{first_holding, unless};

use crate::fault::PeFault;
use crate::pe::PeHeaders;
use crate::standard::{
    IMAGE_DIRECTORY_ENTRY_BASERELOC, IMAGE_DIRECTORY_ENTRY_DEBUG, IMAGE_SIZEOF_SECTION_HEADER,
};
use byteorder::{ByteOrder, LittleEndian};

/// The header of a TE image (UEFI PI specification, volume 1).
#[derive(Clone, Copy, Debug, PartialEq, Eq)]
pub struct TeHead {
    /// The processor, by its PE/COFF number.
    pub machine: u16,
    /// NumberOfSections.
    pub sections: u8,
    pub subsystem: u8,
    /// StrippedSize: how many bytes from the front of the PE file are left out.
    pub stripped: u16,
    /// AddressOfEntryPoint, from the image base.
    pub entry: u32,
    /// BaseOfCode, from the image base.
    pub code: u32,
    /// ImageBase.
    pub base: u64,
    /// Address and size of the base relocations.
    pub relocation: [u32; 2],
    /// Address and size of the debug directory.
    pub debug: [u32; 2],
}

/// The header of the TE image that is made of a PE file, or the first check that the file fails.
#[tactic(auto, unfolding(crate::specs::Te::te_of), using(build_base::proofs::FirstLemmas::first_holding_append))]
pub fn te_header(file: &[u8]) -> Result<TeHead, PeFault>
    ensures value { result ≡ te_of file.now }
    ensures inside { IfOk result (λ head. head.stripped ≤ length file.now) }
    ensures least { IfOk result (λ head. 120 ≤ head.stripped) }
{
    match PeHeaders::of_file(file) {
        Ok(headers) => te_head(file, headers),
        Err(fault) => Err(fault),
    }
}

/// What follows the header in a TE image: the PE file from its section table on.
pub fn strip_at<'a>(file: &'a [u8], head: &TeHead) -> &'a [u8]
    requires { head.now.stripped ≤ length file.now }
    ensures { result.now ≡ drop head.now.stripped file.now }
{
    &file[head.stripped as usize..]
}

#[tactic(auto, unfolding(crate::specs::Te::te_limits))]
fn te_head(file: &[u8], headers: PeHeaders) -> Result<TeHead, PeFault>
    requires { AreHeaders file.now headers }
    ensures value { result ≡ unless (first_holding (te_limits file.now)) (te_head_of file.now) }
    ensures inside { IfOk result (λ head. head.stripped ≤ length file.now) }
    ensures least { IfOk result (λ head. 120 ≤ head.stripped) }
{
    let table = headers.section_table();
    if table > 0xFFFF {
        return Err(PeFault::HeaderTooLong);
    }
    let sections = headers.number_of_sections(file);
    if sections > 0xFF {
        return Err(PeFault::TooManySections);
    }
    if headers.subsystem(file) > 0xFF {
        return Err(PeFault::SubsystemTooLarge);
    }
    if (file.len() as u64) < table + IMAGE_SIZEOF_SECTION_HEADER * sections as u64 {
        return Err(PeFault::Truncated);
    }
    if headers.file_alignment(file) != headers.section_alignment(file) {
        return Err(PeFault::AlignmentsDiffer);
    }
    Ok(head_of(file, headers))
}

#[tactic(auto, unfolding(crate::specs::Te::te_head_of))]
fn head_of(file: &[u8], headers: PeHeaders) -> TeHead
    requires headers { AreHeaders file.now headers }
    requires sections { number_of_sections file.now ≤ 0xFF }
    requires subsystem { subsystem file.now ≤ 0xFF }
    requires table { section_table file.now ≤ 0xFFFF }
    ensures value { result ≡ te_head_of file.now }
    ensures stripped { result.stripped ≡ section_table file.now }
{
    TeHead {
        machine: headers.machine(file),
        sections: headers.number_of_sections(file) as u8,
        subsystem: headers.subsystem(file) as u8,
        stripped: headers.section_table() as u16,
        entry: headers.entry_point(file),
        code: headers.base_of_code(file),
        base: headers.image_base(file),
        relocation: headers.data_directory(file, IMAGE_DIRECTORY_ENTRY_BASERELOC),
        debug: headers.data_directory(file, IMAGE_DIRECTORY_ENTRY_DEBUG),
    }
}

impl TeHead {
    /// The header as it stands at the front of the TE image.
    #[tactic(auto, unfolding(crate::specs::Te::te_bytes, crate::specs::Te::front_bytes))]
    pub fn bytes(&self) -> [u8; 40]
        ensures { result ≡ te_bytes self.now }
    {
        let mut bytes = [0; 40];
        bytes[..16].copy_from_slice(&self.front());
        LittleEndian::write_u64(&mut bytes[16..], self.base);
        bytes[24..32].copy_from_slice(&directory_bytes(self.relocation));
        bytes[32..].copy_from_slice(&directory_bytes(self.debug));
        bytes
    }

    // What stands in front of ImageBase.
    #[tactic(auto, unfolding(crate::specs::Te::front_bytes))]
    fn front(&self) -> [u8; 16]
        ensures { result ≡ front_bytes self.now }
    {
        let mut bytes = [0; 16];
        bytes[0] = b'V';
        bytes[1] = b'Z';
        LittleEndian::write_u16(&mut bytes[2..], self.machine);
        bytes[4] = self.sections;
        bytes[5] = self.subsystem;
        LittleEndian::write_u16(&mut bytes[6..], self.stripped);
        LittleEndian::write_u32(&mut bytes[8..], self.entry);
        LittleEndian::write_u32(&mut bytes[12..], self.code);
        bytes
    }
}

// The address and the size of a data directory.
fn directory_bytes(pair: [u32; 2]) -> [u8; 8]
    ensures { result ≡ directory_bytes pair }
{
    let mut bytes = [0; 8];
    LittleEndian::write_u32(&mut bytes, pair[0]);
    LittleEndian::write_u32(&mut bytes[4..], pair[1]);
    bytes
}
