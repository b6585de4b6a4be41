//! Values of PCDs from their texts.

use crate::words::datum_of;
use build_base::{Refusal, Text};
use case_calls_texts::place_of;
use case_player::{Output, Page, Stop, Wrong, file_of};
use doc_types::pcd::Datum;
use pcd_values::{parse_value, print_value};

/// A value as it prints, or how many bytes it has where they are many.
pub fn value(page: &mut Page, datum: Datum, value: &[u8]) -> Result<(), Stop> {
    if value.len() > 64 {
        page.number(value.len() as u64);
        page.word(b"bytes");
        return Ok(());
    }
    let text = print_value(page.alloc(), datum, value)?;
    page.word(text.bytes());
    Ok(())
}

fn tell_parsed(page: &mut Page, datum: Datum, found: &Text) -> Result<(), Stop> {
    let length = found.bytes().len();
    let text = format!(in page.alloc(); "{length}:")?;
    page.put(text.as_bytes());
    value(page, datum, found.bytes())?;
    page.end();
    Ok(())
}

fn split_at_bar(line: &[u8]) -> (&[u8], &[u8]) {
    match line.iter().position(|byte| *byte == b'|') {
        Some(at) => {
            if at < line.len() {
                (&line[..at], &line[at + 1..])
            } else {
                (line, b"".as_slice())
            }
        }
        None => (line, b"".as_slice()),
    }
}

fn tell_line(page: &mut Page, path: &str, number: u64, line: &[u8]) -> Result<(), Stop> {
    let alloc = page.alloc();
    let (word, text) = split_at_bar(line);
    let datum = datum_of(word)?;
    let at = place_of(alloc, path, number)?;
    let text = Text::of(alloc, text)?;
    match parse_value(alloc, &at, &text, datum) {
        Ok(found) => tell_parsed(page, datum, &found),
        Err(Refusal::Bad(fault)) => {
            page.put_fault(&fault);
            Ok(())
        }
        Err(Refusal::WantOfMemory) => Err(Stop::Wrong(Wrong::WantOfMemory)),
    }
}

/// For each line `DATUM|VALUE` of a file how many bytes its value has and how it prints, or its
/// fault.
pub(crate) fn call_parse_value(page: &mut Page, files: &[Output], path: &str) -> Result<(), Stop> {
    let text = file_of(files, path)?.trim_ascii();
    let mut number: u64 = 0;
    for line in text.split(|byte| *byte == b'\n') {
        number = number.saturating_add(1);
        tell_line(page, path, number, line)?;
    }
    Ok(())
}
