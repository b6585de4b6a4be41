//! The law of volumes that are written and read.
ghost use Rattle.std.specs.Prelude.{◌≡◌, ℕ, List, true, length, Ok, Some};
ghost use Rattle.doc_types.specs.declared.volume_head.VolumeHead.{VolumeHead};
ghost use Rattle.volume_reader.specs.Head.{is_head, volume_from};
ghost use Rattle.volume_reader.specs.Volume.{volume_list};
ghost use Rattle.volume_reader.specs.Written.{Made, IsWritten, written_list};

/// A volume that is written reads back as its files: its image begins with a volume's header, and
/// what that volume holds are its files and the pad files between them, in the order of their
/// places, with their names, types, sizes and sections.
pub fn written_is_read()
    ensures head { (head : VolumeHead) (made : List Made) (image : List ℕ)
        → IsWritten head made image → is_head image ≡ true }
    ensures found { (head : VolumeHead) (made : List Made) (image : List ℕ)
        → IsWritten head made image → volume_from image 0 ≡ Some 0 }
    ensures list { (head : VolumeHead) (made : List Made) (image : List ℕ)
        → IsWritten head made image → volume_list image
        ≡ Ok (written_list head made (length image)) }
{}
