//! The headers of a PE file, by the PE/COFF format.
ghost use Rattle.std.specs.Prelude.{◌≡◌, ◌+◌, ◌==◌, ◌⊎◌, IfOk, IfErr, OnOk, Some, None, if◌then◌else◌};
ghost use Rattle.build_base.specs.First.{first_holding, unless};
ghost use Rattle.te_images.specs.declared.fault.PeFault.TheVariants.{NotPe, Truncated};
ghost use Rattle.te_images.specs.Headers.{AreHeaders};
ghost use Rattle.te_images.specs.Standard.{IMAGE_DOS_SIGNATURE, IMAGE_SIZEOF_FILE_HEADER, IMAGE_SIZEOF_OPTIONAL32_HEADER, IMAGE_SIZEOF_OPTIONAL64_HEADER};
ghost use Rattle.te_images.specs.Pe.{e_magic, machine, number_of_sections, address_of_entry_point, base_of_code, image_base, section_alignment, file_alignment, subsystem, number_of_rva_and_sizes, data_directory, section_table, section_alignment_of, file_alignment_of, pe_checks};

use crate::fault::PeFault;
use crate::number::{u16_at, u32_at, u64_at};
use crate::standard::{
    E_LFANEW, IMAGE_DOS_SIGNATURE, IMAGE_NT_OPTIONAL_HDR32_MAGIC, IMAGE_NT_OPTIONAL_HDR64_MAGIC,
    IMAGE_NT_SIGNATURE, IMAGE_SIZEOF_DOS_HEADER, IMAGE_SIZEOF_FILE_HEADER,
    IMAGE_SIZEOF_OPTIONAL32_HEADER, IMAGE_SIZEOF_OPTIONAL64_HEADER,
};

/// Where the headers of a PE file stand: the signature's place, and SizeOfOptionalHeader.
#[derive(Clone, Copy)]
pub(crate) struct PeHeaders {
    signature: u32,
    optional_size: u16,
    is_pe32_plus: bool,
}

/// SectionAlignment of a PE file: what its sections lie at multiples of, in memory.
#[tactic(auto, unfolding(crate::specs::Pe::section_alignment_of))]
pub fn section_alignment(file: &[u8]) -> Result<u32, PeFault>
    ensures value { result ≡ section_alignment_of file.now }
    ensures only { IfErr result (λ fault. (fault ≡ NotPe) ⊎ (fault ≡ Truncated)) }
{
    match PeHeaders::of_file(file) {
        Ok(headers) => Ok(headers.section_alignment(file)),
        Err(fault) => Err(fault),
    }
}

/// FileAlignment of a PE file: what its sections lie at multiples of, in the file.
#[tactic(auto, unfolding(crate::specs::Pe::file_alignment_of))]
pub fn file_alignment(file: &[u8]) -> Result<u32, PeFault>
    ensures value { result ≡ file_alignment_of file.now }
    ensures only { IfErr result (λ fault. (fault ≡ NotPe) ⊎ (fault ≡ Truncated)) }
{
    match PeHeaders::of_file(file) {
        Ok(headers) => Ok(headers.file_alignment(file)),
        Err(fault) => Err(fault),
    }
}

#[tactic(auto, unfolding(crate::specs::Pe::number_at))]
fn is_dos(file: &[u8]) -> bool
    ensures { result ≡ (e_magic file.now == IMAGE_DOS_SIGNATURE) }
{
    file.len() >= 2 && u16_at(file, 0) == IMAGE_DOS_SIGNATURE
}

impl PeHeaders {
    #[tactic(auto, unfolding(crate::specs::Pe::pe_checks))]
    pub fn of_file(file: &[u8]) -> Result<PeHeaders, PeFault>
        ensures none { OnOk result (first_holding (pe_checks file.now) ≡ None) }
        ensures headers { IfOk result (AreHeaders file.now) }
        ensures only { IfErr result (λ fault. (fault ≡ NotPe) ⊎ (fault ≡ Truncated)) }
        ensures first { IfErr result (λ fault. first_holding (pe_checks file.now) ≡ Some fault) }
    {
        let length = file.len() as u64;
        if !is_dos(file) {
            return Err(PeFault::NotPe);
        }
        if length < IMAGE_SIZEOF_DOS_HEADER {
            return Err(PeFault::Truncated);
        }
        let signature = u32_at(file, E_LFANEW);
        let optional = signature as u64 + IMAGE_SIZEOF_FILE_HEADER;
        if length < optional {
            return Err(PeFault::Truncated);
        }
        if u32_at(file, signature as u64) != IMAGE_NT_SIGNATURE {
            return Err(PeFault::NotPe);
        }
        let optional_size = u16_at(file, signature as u64 + 0x14);
        if optional_size < IMAGE_SIZEOF_OPTIONAL32_HEADER {
            return Err(PeFault::NotPe);
        }
        if length < optional + optional_size as u64 {
            return Err(PeFault::Truncated);
        }
        let magic = u16_at(file, optional);
        let is_pe32_plus = magic == IMAGE_NT_OPTIONAL_HDR64_MAGIC;
        if !(magic == IMAGE_NT_OPTIONAL_HDR32_MAGIC
            || (is_pe32_plus && IMAGE_SIZEOF_OPTIONAL64_HEADER <= optional_size))
        {
            return Err(PeFault::NotPe);
        }
        Ok(PeHeaders {
            signature,
            optional_size,
            is_pe32_plus,
        })
    }

    // The place of the optional header.
    fn optional(self) -> u64
        ensures { result ≡ self.signature + IMAGE_SIZEOF_FILE_HEADER }
    {
        self.signature as u64 + IMAGE_SIZEOF_FILE_HEADER
    }

    // The place of the section table, behind the optional header.
    pub(crate) fn section_table(self) -> u64
        ensures { result ≡ self.signature + IMAGE_SIZEOF_FILE_HEADER + self.optional_size }
    {
        self.optional() + self.optional_size as u64
    }

    pub fn machine(self, file: &[u8]) -> u16
        requires { AreHeaders file.now self }
        ensures { result ≡ machine file.now }
    {
        u16_at(file, self.signature as u64 + 0x04)
    }

    pub(crate) fn number_of_sections(self, file: &[u8]) -> u16
        requires { AreHeaders file.now self }
        ensures { result ≡ number_of_sections file.now }
    {
        u16_at(file, self.signature as u64 + 0x06)
    }

    pub(crate) fn entry_point(self, file: &[u8]) -> u32
        requires { AreHeaders file.now self }
        ensures { result ≡ address_of_entry_point file.now }
    {
        u32_at(file, self.optional() + 0x10)
    }

    pub(crate) fn base_of_code(self, file: &[u8]) -> u32
        requires { AreHeaders file.now self }
        ensures { result ≡ base_of_code file.now }
    {
        u32_at(file, self.optional() + 0x14)
    }

    pub(crate) fn image_base(self, file: &[u8]) -> u64
        requires { AreHeaders file.now self }
        ensures { result ≡ image_base file.now }
    {
        if self.is_pe32_plus {
            u64_at(file, self.optional() + 0x18)
        } else {
            u32_at(file, self.optional() + 0x1C) as u64
        }
    }

    pub fn section_alignment(self, file: &[u8]) -> u32
        requires { AreHeaders file.now self }
        ensures { result ≡ section_alignment file.now }
    {
        u32_at(file, self.optional() + 0x20)
    }

    pub fn file_alignment(self, file: &[u8]) -> u32
        requires { AreHeaders file.now self }
        ensures { result ≡ file_alignment file.now }
    {
        u32_at(file, self.optional() + 0x24)
    }

    pub(crate) fn subsystem(self, file: &[u8]) -> u16
        requires { AreHeaders file.now self }
        ensures { result ≡ subsystem file.now }
    {
        u16_at(file, self.optional() + 0x44)
    }

    // NumberOfRvaAndSizes: how many data directories there are.
    fn directory_count(self, file: &[u8]) -> u32
        requires { AreHeaders file.now self }
        ensures { result ≡ number_of_rva_and_sizes file.now }
    {
        let offset = if self.is_pe32_plus { 0x6C } else { 0x5C };
        u32_at(file, self.optional() + offset)
    }

    // Where in the optional header the data directories start.
    fn directories(self) -> u64
        ensures { result ≡ (if self.is_pe32_plus then IMAGE_SIZEOF_OPTIONAL64_HEADER
            else IMAGE_SIZEOF_OPTIONAL32_HEADER) }
    {
        if self.is_pe32_plus {
            IMAGE_SIZEOF_OPTIONAL64_HEADER as u64
        } else {
            IMAGE_SIZEOF_OPTIONAL32_HEADER as u64
        }
    }

    // The address and the size in a data directory; zeros where there is none of this number.
    #[tactic(auto, unfolding(crate::specs::Pe::data_directory))]
    pub(crate) fn data_directory(self, file: &[u8], number: u32) -> [u32; 2]
        requires { AreHeaders file.now self }
        ensures { result ≡ data_directory file.now number }
    {
        let offset = self.directories() + 8 * number as u64;
        if number < self.directory_count(file) && offset + 8 <= self.optional_size as u64 {
            let at = self.optional() + offset;
            [u32_at(file, at), u32_at(file, at + 4)]
        } else {
            [0, 0]
        }
    }
}
