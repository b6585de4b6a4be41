//! Calls that make a volume. The call's file has one thing a line: `block NUMBER`, `size NUMBER`,
//! `guid GUID`, `base NUMBER`, lines `file GUID ALIGN PATH`, and the words `ffs3`, `erase0`.

use crate::words::{bytes_of, count, guid_of, middle, other_form};
use build_base::bytes::fill;
use build_base::{Book, Rows, Run, Text};
use case_calls_texts::{checked_copy, place_of};
use case_player::{Output, Page, Stop, Wrong, first_word, text_of};
use doc_types::image::FileImage;
use doc_types::volume_head::VolumeHead;
use fv_compose::{are_aligned, compose, has_shape};
use image_rebase::{is_based, rebase_volume};
use std::alloc::Global;

fn empty_head(alloc: Global, path: &str) -> Result<VolumeHead, Stop> {
    let at = place_of(alloc, path, 1)?;
    let name = Text::of(alloc, b"V")?;
    Ok(VolumeHead {
        at,
        name,
        attributes: 0x800,
        erase: 1,
        block_size: 0x1000,
        size: None,
        name_guid: None,
        base: None,
        force: false,
        ffs3: false,
    })
}

fn image_of(alloc: Global, files: &[Output], at: &str, words: &str) -> Result<FileImage, Stop> {
    let (guid, rest) = first_word(words);
    let (align, path) = first_word(rest);
    Ok(FileImage {
        at: place_of(alloc, at, 1)?,
        guid: guid_of(guid)?,
        align: middle(align)?,
        bytes: bytes_of(alloc, files, path)?,
    })
}

fn set_flag(head: &mut VolumeHead, word: &str) -> Result<(), Stop> {
    match word {
        "ffs3" => head.ffs3 = true,
        "erase0" => {
            head.erase = 0;
            head.attributes = 0;
        }
        _ => return Err(other_form()),
    }
    Ok(())
}

fn set_head(head: &mut VolumeHead, word: &str, rest: &str) -> Result<(), Stop> {
    match word {
        "block" => head.block_size = count(rest)?,
        "size" => head.size = Some(count(rest)?),
        "guid" => head.name_guid = Some(guid_of(rest)?),
        "base" => {
            head.base = Some(count(rest)?);
            head.force = true;
        }
        _ => set_flag(head, word)?,
    }
    Ok(())
}

fn push_run(out: &mut Vec<u8>, run: &Run) -> Result<(), Stop> {
    match run {
        Run::Fill { byte, count } => fill(out, *count, *byte)?,
        Run::Bytes(bytes) => out.extend_from_slice(bytes.bytes())?,
    }
    Ok(())
}

// The bytes that runs stand for.
fn bytes_of_runs(alloc: Global, runs: &[Run]) -> Result<Vec<u8>, Stop> {
    let mut out = Vec::new(alloc);
    for run in runs {
        push_run(&mut out, run)?;
    }
    Ok(out)
}

// The head and the files that the file of this path tells.
fn plan_of(
    alloc: Global,
    files: &[Output],
    path: &str,
    images: &mut Rows<FileImage>,
) -> Result<VolumeHead, Stop> {
    let mut head = empty_head(alloc, path)?;
    for line in text_of(files, path)?.lines() {
        let (word, rest) = first_word(line);
        if word == "file" {
            images.push(image_of(alloc, files, path, rest)?)?;
        } else {
            set_head(&mut head, word, rest)?;
        }
    }
    Ok(head)
}

/// The file `volume`, or its fault, of what the file of this path has.
pub(crate) fn call_compose(page: &mut Page, files: &[Output], path: &str) -> Result<(), Stop> {
    let alloc = page.alloc();
    let mut images = Rows::new(alloc);
    let head = plan_of(alloc, files, path, &mut images)?;
    tell_composed(
        page,
        &checked_copy(alloc, &head)?,
        &checked_copy(alloc, &images)?,
    )
}

/// The same with its modules moved; `base NUMBER` says where the volume lies.
pub(crate) fn call_rebase_volume(
    page: &mut Page,
    files: &[Output],
    path: &str,
) -> Result<(), Stop> {
    let alloc = page.alloc();
    let mut images = Rows::new(alloc);
    let head = plan_of(alloc, files, path, &mut images)?;
    tell_rebased(
        page,
        &checked_copy(alloc, &head)?,
        &checked_copy(alloc, &images)?,
    )
}

fn tell_composed(page: &mut Page, head: &VolumeHead, images: &Rows<FileImage>) -> Result<(), Stop> {
    if !has_shape(head) {
        return Err(no_blocks());
    }
    if !are_aligned(images) {
        return Err(no_alignment());
    }
    let alloc = page.alloc();
    let mut book: Book<u8> = Book::new(alloc);
    let runs = compose(alloc, book.grant(1)?, head, images)?;
    let bytes = bytes_of_runs(alloc, checked_copy(alloc, &runs)?.items())?;
    page.file(b"volume", bytes.as_slice());
    Ok(())
}

fn tell_rebased(page: &mut Page, head: &VolumeHead, images: &Rows<FileImage>) -> Result<(), Stop> {
    if !is_based(head) {
        return Err(Stop::Wrong(Wrong::Line("the volume has no base")));
    }
    if !has_shape(head) {
        return Err(no_blocks());
    }
    if !are_aligned(images) {
        return Err(no_alignment());
    }
    let alloc = page.alloc();
    let mut book: Book<u8> = Book::new(alloc);
    let runs = rebase_volume(alloc, book.grant(1)?, head, images)?;
    let bytes = bytes_of_runs(alloc, checked_copy(alloc, &runs)?.items())?;
    page.file(b"volume", bytes.as_slice());
    Ok(())
}

fn no_blocks() -> Stop {
    Stop::Wrong(Wrong::Line("the size is no whole number of blocks"))
}

fn no_alignment() -> Stop {
    Stop::Wrong(Wrong::Line("an alignment that no header can state"))
}
