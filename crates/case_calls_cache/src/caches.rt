//! Caches and their texts.

use crate::keys::{key_of, tell_key};
use build_base::{Rows, Text};
use case_player::{Output, Page, Stop, Wrong, file_of};
use shared_value::Shared;
use std::alloc::Global;
use step_cache::{pack, unpack};
use step_engine::{Cache, Entry, Outcome, Talk};
use step_pack::{Key, Out};

// The entry of a line's key, without asks, that gives the line.
fn entry_of(alloc: Global, line: &[u8]) -> Result<Entry<Key, Out>, Stop> {
    let Ok(words) = str::from_utf8(line) else {
        return Err(Stop::Wrong(Wrong::Line("a key is written in ASCII")));
    };
    let key = key_of(alloc, words)?;
    let batches = Rows::new(alloc);
    let talk = Shared::new(alloc, Talk { batches })?;
    let text = Text::of(alloc, line)?;
    let result = Outcome::Good(Shared::new(alloc, Out::Depex(text))?);
    Ok(Entry { key, talk, result })
}

/// The text of the cache of a file's keys, one on each line, as the file `packed`. Each gives its
/// line.
pub(crate) fn call_pack(page: &mut Page, files: &[Output], path: &str) -> Result<(), Stop> {
    let alloc = page.alloc();
    let mut cache = Cache::new(alloc);
    for line in file_of(files, path)?.split(|byte| *byte == b'\n') {
        if !line.is_empty() {
            cache.put(entry_of(alloc, line)?)?;
        }
    }
    let text = pack(alloc, &cache)?;
    page.file(b"packed", text.bytes());
    Ok(())
}

fn tell_entries(page: &mut Page, entries: &[Entry<Key, Out>]) {
    for entry in entries {
        tell_key(page, &entry.key);
    }
}

/// The keys of the cache whose text a file is, which is packed again as the file `packed`; or
/// `none`.
pub(crate) fn call_unpack(page: &mut Page, files: &[Output], path: &str) -> Result<(), Stop> {
    let alloc = page.alloc();
    match unpack(alloc, file_of(files, path)?)? {
        None => page.put(b"none\n"),
        Some(kept) => {
            tell_entries(page, kept.cache.entries());
            let text = pack(alloc, &kept.cache)?;
            page.file(b"packed", text.bytes());
        }
    }
    Ok(())
}

fn is_none(alloc: Global, bytes: &[u8]) -> Result<bool, Stop> {
    match unpack(alloc, bytes)? {
        None => Ok(true),
        Some(_kept) => Ok(false),
    }
}

// How many of the texts with another byte at the place are none.
fn none_at(alloc: Global, bytes: &mut [u8], place: usize) -> Result<u64, Stop> {
    let mut count: u64 = 0;
    for change in 1..=255 {
        if place < bytes.len() {
            bytes[place] ^= change;
            if is_none(alloc, bytes)? {
                count = count.saturating_add(1);
            }
            bytes[place] ^= change;
        }
    }
    Ok(count)
}

/// How many of a file's texts with one byte changed are the text of no cache, for each place.
pub(crate) fn call_unpack_changed(
    page: &mut Page,
    files: &[Output],
    path: &str,
) -> Result<(), Stop> {
    let alloc = page.alloc();
    let mut bytes = Vec::from_slice(alloc, file_of(files, path)?)?;
    for place in 0..bytes.len() {
        let count = none_at(alloc, &mut bytes, place)?;
        page.put(b"none");
        page.number(count);
        page.end();
    }
    Ok(())
}

/// How many of what begins a file, from nothing to all of it but a byte, are the text of no cache.
pub(crate) fn call_unpack_cut(page: &mut Page, files: &[Output], path: &str) -> Result<(), Stop> {
    let alloc = page.alloc();
    let bytes = file_of(files, path)?;
    let mut count: u64 = 0;
    for length in 0..bytes.len() {
        if is_none(alloc, &bytes[..length])? {
            count = count.saturating_add(1);
        }
    }
    page.put(b"none");
    page.number(count);
    page.end();
    Ok(())
}
