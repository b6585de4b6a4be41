//! Laws of volumes that are read, and of volumes whose modules are moved.
ghost use Rattle.std.specs.Prelude.{◌≡◌, ◌↔◌, ℕ, ◌-◌, Bool, true, is_some, List, Some, Ok, Err};
ghost use Rattle.byteorder.specs.Endian.{little_from};
ghost use Rattle.build_base.specs.declared.fault.Place.{Place};
ghost use Rattle.doc_types.specs.declared.image.FileImage.{FileImage};
ghost use Rattle.doc_types.specs.declared.volume_head.VolumeHead.{VolumeHead};
ghost use Rattle.fv_compose.specs.Volume.{volume_of};
ghost use Rattle.volume_reader.specs.declared.listed.ListedSection.{ListedSection};
ghost use Rattle.volume_reader.specs.declared.listed.VolumeList.{VolumeList};
ghost use Rattle.volume_reader.specs.Sections.{sections_of};
ghost use Rattle.volume_reader.specs.Volume.{volume_list};
ghost use Rattle.volume_reader.specs.Written.{Made, files_of};
ghost use Rattle.te_images.specs.Pe.{image_base};
ghost use Rattle.image_rebase.specs.Files.{moved_file};
ghost use Rattle.image_rebase.specs.Module.{module_in, stripped_size};
ghost use Rattle.image_rebase.specs.Moves.{moved_content};
ghost use Rattle.image_rebase.specs.Rebase.{rebased_bytes};
ghost use Rattle.image_rebase.specs.Standard.{EFI_SECTION_PE32, EFI_SECTION_TE, EFI_TE_IMAGE_HEADER_SIZE};
ghost use Rattle.volume_laws.specs.Holds.{Holds, IsWrong};
ghost use Rattle.volume_laws.specs.Moved.{AreBuilt, IsReadAlike};
ghost use Rattle.volume_laws.specs.Sections.{AreSectionsFrom};
ghost use Rattle.volume_laws.specs.MovedBytes.{IsMovedContent, IsMovedFile, IsMovedVolume, KeepsFields};

/// A volume whose modules are moved reads back as the volume of its files as they are, but for the
/// sections: its image begins with a volume's header, and what that volume holds are its files and
/// the pad files between them, in the same order and places, with their names, types and sizes.
pub fn moved_is_read()
    ensures { (head : VolumeHead) (made : List Made) (image : List ℕ) → AreBuilt head made
        → rebased_bytes head (files_of made) ≡ Ok image → IsReadAlike head made image }
{}

/// What is read of a volume whose modules are moved is what is read of the volume of its files as
/// they are. That is its length, its files with their places, names, types, sizes and sections, and
/// how many bytes are free.
pub fn moved_is_read_as_it_was()
    ensures { (head : VolumeHead) (made : List Made) (image plain : List ℕ) → AreBuilt head made
        → rebased_bytes head (files_of made) ≡ Ok image → volume_of head (files_of made) ≡ Ok plain
        → volume_list image ≡ volume_list plain }
{}

/// What is read of a volume is what it holds, and a volume holds one list of files at most. The
/// place of a wrong file is read where files stand one behind the other up to that place.
pub fn files_are_read()
    ensures list { (bytes : List ℕ) (list : VolumeList)
        → volume_list bytes ≡ Ok list ↔ Holds bytes list }
    ensures one { (bytes : List ℕ) (list : VolumeList) (other : VolumeList)
        → Holds bytes list → Holds bytes other → list ≡ other }
    ensures wrong { (bytes : List ℕ) (place : ℕ)
        → volume_list bytes ≡ Err place ↔ IsWrong bytes place }
{}

/// What is read of a file's body are its sections, one behind the other, and a body has one list of
/// sections at most.
pub fn sections_are_read()
    ensures list { (ffs3 : Bool) (place : ℕ) (body : List ℕ) (rows : List ListedSection)
        → sections_of ffs3 place body ≡ Some rows ↔ AreSectionsFrom ffs3 place body 0 rows }
    ensures one { (ffs3 : Bool) (place : ℕ) (body : List ℕ) (rows others : List ListedSection)
        → AreSectionsFrom ffs3 place body 0 rows → AreSectionsFrom ffs3 place body 0 others
        → rows ≡ others }
{}

/// A moved file is as long as the file was, and has the same sections in the same places. All its
/// bytes outside of its modules and of the file checksum stay. Each module's content is moved to
/// the address at which it lies. The file checksum is that of the new body.
pub fn file_is_moved()
    ensures { (ffs3 : Bool) (base start : ℕ) (file moved : FileImage)
        → moved_file ffs3 base start file ≡ Ok moved
        → IsMovedFile ffs3 base start file moved }
{}

/// The content of a section that is moved is as long as it was, and its ImageBase is the new one.
/// Each word that base relocations name once has the difference of the two bases more. All bytes
/// but those of ImageBase and of named words stay.
pub fn content_is_moved()
    ensures { (place : Place) (base address kind : ℕ) (content moved : List ℕ)
        → moved_content place base address kind content ≡ Ok moved
        → IsMovedContent place address kind content moved }
{}

/// A volume whose modules are moved is the volume of its files, each of which is moved to where it
/// stands in the volume of the files as they are.
pub fn volume_is_moved()
    ensures { (head : VolumeHead) (files : List FileImage) (image : List ℕ)
        → rebased_bytes head files ≡ Ok image
        → IsMovedVolume head files image }
{}

/// The ImageBase of a module that is moved is the address of relative address 0. In a PE32 image
/// that is where its content lies. The content of a TE image begins with its header, in place of
/// the first StrippedSize bytes.
pub fn image_base_is_moved()
    ensures pe { (place : Place) (base address : ℕ) (content moved : List ℕ)
        → is_some (module_in EFI_SECTION_PE32 content) ≡ true → KeepsFields place content
        → moved_content place base address EFI_SECTION_PE32 content ≡ Ok moved
        → image_base moved ≡ address }
    ensures te { (place : Place) (base address : ℕ) (content moved : List ℕ)
        → is_some (module_in EFI_SECTION_TE content) ≡ true
        → moved_content place base address EFI_SECTION_TE content ≡ Ok moved
        → little_from 0x10 8 moved
        ≡ address - (stripped_size content - EFI_TE_IMAGE_HEADER_SIZE) }
{}
