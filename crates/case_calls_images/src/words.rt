//! The words of the files that tell what is to be made.

use build_base::{Guid, Text};
use case_player::{Output, Stop, Wrong, file_of};
use meta_lexer::number;
use std::alloc::Global;

pub fn guid_of(text: &str) -> Result<Guid, Wrong> {
    match Guid::of_text(text.trim_ascii().as_bytes()) {
        Some(guid) => Ok(guid),
        None => Err(Wrong::Line("a GUID of the call's file is none")),
    }
}

pub fn count(text: &str) -> Result<u64, Wrong> {
    match number(text.trim_ascii().as_bytes()) {
        Some(value) => Ok(value),
        None => Err(Wrong::Line("a number of the call's file is none")),
    }
}

pub fn small(text: &str) -> Result<u8, Wrong> {
    match u8::try_from(count(text)?) {
        Ok(value) => Ok(value),
        Err(_) => Err(Wrong::Line("a number of the call's file is over 255")),
    }
}

pub fn middle(text: &str) -> Result<u32, Wrong> {
    match u32::try_from(count(text)?) {
        Ok(value) => Ok(value),
        Err(_) => Err(Wrong::Line("a number of the call's file has over 32 bits")),
    }
}

pub fn bytes_of(alloc: Global, files: &[Output], path: &str) -> Result<Text, Stop> {
    Ok(Text::of(alloc, file_of(files, path.trim_ascii())?)?)
}

/// A line that begins with no word that its file may have.
pub fn other_form() -> Stop {
    Stop::Wrong(Wrong::Line("a line of the call's file has another form"))
}
