//! Keys, which a case writes as the name of the variant and its fields.

use build_base::Path;
use case_calls_texts::path_of;
use case_player::{Output, Page, Stop, Wrong, file_of, first_word};
use doc_types::arch::Arch;
use doc_types::choice::Module;
use packed_outcomes::unpack_key;
use std::alloc::Global;
use step_pack::{Key, pack_key};

fn plain_key(name: &str) -> Result<Key, Stop> {
    match name {
        "Platform" => Ok(Key::Platform),
        "Flash" => Ok(Key::Flash),
        "PlatformPcds" => Ok(Key::PlatformPcds),
        "Report" => Ok(Key::Report),
        "All" => Ok(Key::All),
        "Vpd" => Ok(Key::Vpd),
        _ => Err(Stop::Wrong(Wrong::Line("no key has this name"))),
    }
}

fn arch_of(word: &str) -> Result<Arch, Stop> {
    match word {
        "Common" => Ok(Arch::Common),
        "Ia32" => Ok(Arch::Ia32),
        "X64" => Ok(Arch::X64),
        "Ebc" => Ok(Arch::Ebc),
        _ => Err(Stop::Wrong(Wrong::Line("no architecture has this name"))),
    }
}

fn module_of(alloc: Global, words: &str) -> Result<Module, Stop> {
    let (arch, path) = first_word(words);
    let arch = arch_of(arch)?;
    let inf = path_of(alloc, path)?;
    Ok(Module { arch, inf })
}

fn number_of(word: &str) -> Result<u32, Stop> {
    match word.trim_ascii().parse::<u32>() {
        Ok(number) => Ok(number),
        Err(_) => Err(Stop::Wrong(Wrong::Line("a number of 32 bits is wanted"))),
    }
}

fn file_key(words: &str) -> Result<Key, Stop> {
    let (volume, item) = first_word(words);
    let volume = number_of(volume)?;
    let item = number_of(item)?;
    Ok(Key::File(volume, item))
}

fn image_key(name: &str, words: &str) -> Result<Key, Stop> {
    match name {
        "File" => file_key(words),
        "Volume" => Ok(Key::Volume(number_of(words)?)),
        "Device" => Ok(Key::Device(number_of(words)?)),
        "Based" => Ok(Key::Based(number_of(words)?)),
        _ => plain_key(name),
    }
}

/// The key of a name and fields.
pub fn key_of(alloc: Global, words: &str) -> Result<Key, Stop> {
    let (name, rest) = first_word(words);
    match name {
        "Dec" => Ok(Key::Dec(path_of(alloc, rest)?)),
        "Inf" => Ok(Key::Inf(path_of(alloc, rest)?)),
        "Choice" => Ok(Key::Choice(module_of(alloc, rest)?)),
        "Values" => Ok(Key::Values(module_of(alloc, rest)?)),
        "Code" => Ok(Key::Code(module_of(alloc, rest)?)),
        "Depex" => Ok(Key::Depex(module_of(alloc, rest)?)),
        _ => image_key(name, rest),
    }
}

fn tell_path(page: &mut Page, name: &[u8], path: &Path) {
    page.row(name, path.bytes());
}

fn tell_module(page: &mut Page, name: &[u8], module: &Module) {
    page.put(name);
    page.name(&module.arch);
    page.word(module.inf.bytes());
    page.end();
}

fn tell_number(page: &mut Page, name: &[u8], number: u32) {
    page.put(name);
    page.number(number as u64);
    page.end();
}

fn tell_image_key(page: &mut Page, key: &Key) {
    match key {
        Key::File(volume, item) => {
            page.put(b"File");
            page.number(*volume as u64);
            page.number(*item as u64);
            page.end();
        }
        Key::Volume(number) => tell_number(page, b"Volume", *number),
        Key::Device(number) => tell_number(page, b"Device", *number),
        Key::Based(number) => tell_number(page, b"Based", *number),
        Key::Report => page.put(b"Report\n"),
        Key::Vpd => page.put(b"Vpd\n"),
        _ => page.put(b"All\n"),
    }
}

fn tell_platform_key(page: &mut Page, key: &Key) {
    match key {
        Key::Platform => page.put(b"Platform\n"),
        Key::Flash => page.put(b"Flash\n"),
        Key::PlatformPcds => page.put(b"PlatformPcds\n"),
        _ => tell_image_key(page, key),
    }
}

/// A key on a line of its own.
pub(crate) fn tell_key(page: &mut Page, key: &Key) {
    match key {
        Key::Dec(path) => tell_path(page, b"Dec", path),
        Key::Inf(path) => tell_path(page, b"Inf", path),
        Key::Choice(module) => tell_module(page, b"Choice", module),
        Key::Values(module) => tell_module(page, b"Values", module),
        Key::Code(module) => tell_module(page, b"Code", module),
        Key::Depex(module) => tell_module(page, b"Depex", module),
        _ => tell_platform_key(page, key),
    }
}

/// The packed form of a key, as the file `packed`.
pub(crate) fn call_pack_key(page: &mut Page, words: &str) -> Result<(), Stop> {
    let alloc = page.alloc();
    let key = key_of(alloc, words)?;
    let text = pack_key(alloc, &key)?;
    page.file(b"packed", text.bytes());
    Ok(())
}

/// The key that a file is the packed form of, or `none`.
pub(crate) fn call_unpack_key(page: &mut Page, files: &[Output], path: &str) -> Result<(), Stop> {
    match unpack_key(page.alloc(), file_of(files, path)?)? {
        None => page.put(b"none\n"),
        Some(key) => tell_key(page, &key),
    }
    Ok(())
}
