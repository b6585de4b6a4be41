//! A call that makes a file. The call's file has one thing a line: `name GUID`, `type NUMBER`,
//! `align NUMBER`, `whole PATH` or lines `section KIND ALIGN SHIFT PATH [GUID]`, and the words
//! `fixed`, `checksum`, `ffs3`, `erase0`.

use crate::words::{bytes_of, guid_of, middle, other_form, small};
use build_base::{Book, Guid, Rows};
use case_calls_texts::{checked_copy, place_of};
use case_player::{Output, Page, Stop, Wrong, first_word, text_of};
use doc_types::image::{Body, ImagePlan, Part};
use ffs_sections::{file_of, have_guids};
use std::alloc::Global;

fn empty_plan(alloc: Global, path: &str) -> Result<ImagePlan, Stop> {
    Ok(ImagePlan {
        at: place_of(alloc, path, 1)?,
        file_type: 0x01,
        guid: Guid([0; 16]),
        fixed: false,
        checksum: false,
        align: 1,
        erase: 1,
        ffs3: false,
        body: Body::Sections(Rows::new(alloc)),
    })
}

fn guid_given(text: &str) -> Result<Option<Guid>, Wrong> {
    if text.is_empty() {
        Ok(None)
    } else {
        Ok(Some(guid_of(text)?))
    }
}

fn section_of(alloc: Global, files: &[Output], words: &str) -> Result<Part, Stop> {
    let (kind, rest) = first_word(words);
    let (align, rest) = first_word(rest);
    let (shift, rest) = first_word(rest);
    let (path, guid) = first_word(rest);
    Ok(Part {
        kind: small(kind)?,
        guid: guid_given(guid)?,
        align: middle(align)?,
        shift: middle(shift)?,
        bytes: bytes_of(alloc, files, path)?,
    })
}

fn add_section(plan: &mut ImagePlan, part: Part) -> Result<(), Stop> {
    match &mut plan.body {
        Body::Whole(_bytes) => Err(Stop::Wrong(Wrong::Line("a whole file has no sections"))),
        Body::Sections(parts) => {
            parts.push(part)?;
            Ok(())
        }
    }
}

fn set_flag(plan: &mut ImagePlan, word: &str) -> Result<(), Stop> {
    match word {
        "fixed" => plan.fixed = true,
        "checksum" => plan.checksum = true,
        "ffs3" => plan.ffs3 = true,
        "erase0" => plan.erase = 0,
        _ => return Err(other_form()),
    }
    Ok(())
}

fn set_body(alloc: Global, files: &[Output], plan: &mut ImagePlan, line: &str) -> Result<(), Stop> {
    let (word, rest) = first_word(line);
    match word {
        "whole" => {
            let bytes = bytes_of(alloc, files, rest)?;
            plan.body = Body::Whole(bytes);
            Ok(())
        }
        "section" => add_section(plan, section_of(alloc, files, rest)?),
        _ => set_flag(plan, word),
    }
}

fn set_plan(alloc: Global, files: &[Output], plan: &mut ImagePlan, line: &str) -> Result<(), Stop> {
    let (word, rest) = first_word(line);
    match word {
        "name" => plan.guid = guid_of(rest)?,
        "type" => plan.file_type = small(rest)?,
        "align" => plan.align = middle(rest)?,
        _ => set_body(alloc, files, plan, line)?,
    }
    Ok(())
}

fn plan_of(alloc: Global, files: &[Output], path: &str) -> Result<ImagePlan, Stop> {
    let mut plan = empty_plan(alloc, path)?;
    for line in text_of(files, path)?.lines() {
        set_plan(alloc, files, &mut plan, line)?;
    }
    checked_copy(alloc, &plan)
}

/// The file `file`, or its fault, of the plan that the file of this path has.
pub(crate) fn call_file_of(page: &mut Page, files: &[Output], path: &str) -> Result<(), Stop> {
    let alloc = page.alloc();
    let plan = plan_of(alloc, files, path)?;
    if !have_guids(&plan.body) {
        return Err(Stop::Wrong(Wrong::Line("a GUID stands in no SUBTYPE_GUID section")));
    }
    let mut book: Book<u8> = Book::new(alloc);
    let file = file_of(alloc, book.grant(1)?, &plan)?;
    let file = checked_copy(alloc, &file)?;
    page.file(b"file", file.bytes.bytes());
    Ok(())
}
