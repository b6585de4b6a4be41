//! Calls of what reads images.

use crate::words::count;
use case_calls_texts::path_of;
use case_player::{Output, Page, Stop, Wrong, file_of, first_word};
use volume_reader::{
    Listed, ReadRefusal, VolumeList, find_volume, is_head, list_text, read_volume,
};

/// The listing of the file of this path on standard output, or its fault.
pub(crate) fn call_list_text(page: &mut Page, files: &[Output], path: &str) -> Result<(), Stop> {
    let alloc = page.alloc();
    let bytes = file_of(files, path)?;
    let name = path_of(alloc, path)?;
    let text = list_text(alloc, &name, bytes)?;
    page.put(text.bytes());
    Ok(())
}

/// The first place from a number on at which a volume stands in a file, or `none`.
pub(crate) fn call_find_volume(page: &mut Page, files: &[Output], words: &str) -> Result<(), Stop> {
    let (from, path) = first_word(words);
    match find_volume(file_of(files, path)?, count(from)?) {
        Some(at) => page.count(b"at", at),
        None => page.word(b"none"),
    }
    page.end();
    Ok(())
}

fn tell_sections(page: &mut Page, file: &Listed) {
    for section in file.sections.items() {
        page.put(b"section");
        page.number(section.kind as u64);
        page.number(section.size);
        page.number(section.start);
        page.end();
    }
}

fn tell_file(page: &mut Page, file: &Listed) {
    page.put(b"file");
    page.number(file.place);
    page.guid(&file.guid);
    page.number(file.file_type as u64);
    page.number(file.size);
    page.end();
    tell_sections(page, file);
}

fn tell_volume(page: &mut Page, list: &VolumeList) {
    page.put(b"volume");
    page.number(list.length);
    page.name(&list.ffs3);
    page.number(list.free);
    page.end();
    for file in list.files.items() {
        tell_file(page, file);
    }
}

/// What the volume holds that a file begins with, row by row; or `wrong` and the place of its first
/// wrong file, with the status 1.
pub(crate) fn call_read_volume(page: &mut Page, files: &[Output], path: &str) -> Result<(), Stop> {
    let bytes = file_of(files, path)?;
    if !is_head(bytes) {
        return Err(Stop::Wrong(Wrong::Line("no volume's header stands at the front")));
    }
    match read_volume(page.alloc(), bytes) {
        Ok(list) => tell_volume(page, &list),
        Err(ReadRefusal::BadFile(place)) => {
            let text = format!(in page.alloc(); "wrong {place}\n")?;
            page.fail(text.as_bytes());
        }
        Err(ReadRefusal::WantOfMemory) => return Err(Stop::Wrong(Wrong::WantOfMemory)),
    }
    Ok(())
}
