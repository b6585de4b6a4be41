//! What the content of a section is made of, which is lent until the file is made.
ghost use Rattle.std.specs.Prelude.{◌≡◌, ◌≤◌, length, IfOk};
ghost use Rattle.build_base.specs.Answer.{Answers};
ghost use Rattle.te_images.specs.Te.{te_of};
ghost use Rattle.file_steps.specs.Parts.{as_is, te_content, te_shaped, file_shaped};

use crate::parts::pe_fault;
use build_base::{Image, Path, Refusal, Text, WantOfMemory};
use doc_types::standard::EFI_SECTION_TE;
use ffs_sections::LentContent;
use std::alloc::Global;
use std::marker::Model;
use te_images::{TeHead, strip_at, te_header};

/// The content of a section, as `Shaped`, whose bytes stand where they stood.
#[derive(Drop)]
pub(crate) struct LentShaped<'a> {
    pub shift: u32,
    pub content: LentContent<'a>,
}

impl<'a> Model for LentShaped<'a> {
    ghost use Rattle.file_steps.specs.declared.parts.Shaped.{Shaped};

    ghost Value = { Shaped };

    ghost view = { λ s. record { shift = s.shift; bytes = s.content } };
}

impl<'a> LentShaped<'a> {
    fn of_bytes(bytes: &'a [u8]) -> LentShaped<'a>
        ensures { result ≡ as_is bytes.now }
    {
        LentShaped {
            shift: 0,
            content: LentContent::of_bytes(bytes),
        }
    }

    /// A text that is made for this section alone.
    pub fn of_text(text: Text) -> LentShaped<'a>
        ensures { result ≡ as_is text }
    {
        LentShaped {
            shift: 0,
            content: LentContent::of_text(text),
        }
    }

    /// A volume.
    pub fn of_image(image: &'a Image) -> Result<LentShaped<'a>, WantOfMemory>
        ensures { IfOk result (λ s. s ≡ as_is image.now) }
    {
        Ok(LentShaped {
            shift: 0,
            content: LentContent::of_image(image)?,
        })
    }

    fn te_content(
        alloc: Global,
        file: &'a [u8],
        head: &TeHead,
    ) -> Result<LentShaped<'a>, WantOfMemory>
        requires inside { head.now.stripped ≤ length file.now }
        requires least { 120 ≤ head.now.stripped }
        ensures { IfOk result (λ s. s ≡ te_content file.now head.now) }
    {
        let front = Text::of(alloc, head.bytes().as_slice())?;
        Ok(LentShaped {
            shift: head.stripped as u32 - 40,
            content: LentContent::of_parts(front, strip_at(file, head))?,
        })
    }

    fn te(alloc: Global, path: &Path, file: &'a [u8]) -> Result<LentShaped<'a>, Refusal>
        ensures { Answers result (te_shaped path.now file.now (te_of file.now)) }
    {
        match te_header(file) {
            Ok(head) => Ok(LentShaped::te_content(alloc, file, &head)?),
            Err(fault) => Err(pe_fault(alloc, path, file, fault)),
        }
    }

    /// The content of a section of this kind that is made of a file: of a TE section its TE image.
    pub fn of_file(
        alloc: Global,
        kind: u8,
        path: &Path,
        file: &'a Text,
    ) -> Result<LentShaped<'a>, Refusal>
        ensures { Answers result (file_shaped kind path.now file.now) }
    {
        if kind == EFI_SECTION_TE {
            return LentShaped::te(alloc, path, file.bytes());
        }
        Ok(LentShaped::of_bytes(file.bytes()))
    }
}
