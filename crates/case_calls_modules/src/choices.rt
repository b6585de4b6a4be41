//! Calls of the choice of libraries, over the documents of a case.

use crate::words::module_named;
use build_base::{Book, Path, Rows};
use case_calls_documents::{module_of, platform_at};
use case_calls_texts::checked_copy;
use case_player::{Output, Page, Stop, Wrong, first_word};
use doc_types::choice::{Call, Choice, Module};
use doc_types::module::InfDoc;
use doc_types::platform::PlatformDoc;
use library_choice::{choose, is_known, next_wanted};
use shared_value::Shared;
use std::alloc::Global;

// A round's paths as one line.
fn tell_round(page: &mut Page, paths: &[Path]) {
    page.put(b"wanted");
    for path in paths {
        page.word(path.bytes());
    }
    page.end();
}

fn tell_calls(page: &mut Page, name: &[u8], calls: &[Call]) {
    for call in calls {
        page.put(name);
        page.pair(call.inf.bytes(), call.name.bytes());
        page.end();
    }
}

fn tell_choice(page: &mut Page, choice: &Choice) {
    if choice.library {
        page.put(b"a library\n");
    }
    for path in choice.instances.items() {
        page.row(b"instance", path.bytes());
    }
    tell_calls(page, b"constructor", choice.constructors.items());
    tell_calls(page, b"destructor", choice.destructors.items());
}

fn add_inf(
    alloc: Global,
    files: &[Output],
    infs: &mut Rows<Shared<InfDoc>>,
    path: &Path,
) -> Result<(), Stop> {
    let module = module_of(alloc, files, path)?;
    infs.push(Shared::new(alloc, module)?)?;
    Ok(())
}

fn add_infs(
    alloc: Global,
    files: &[Output],
    infs: &mut Rows<Shared<InfDoc>>,
    paths: &[Path],
) -> Result<(), Stop> {
    for path in paths {
        add_inf(alloc, files, infs, path)?;
    }
    Ok(())
}

// The rounds in which INF files are wanted, and then the choice.
fn tell_rounds(
    page: &mut Page,
    files: &[Output],
    module: &Module,
    platform: &PlatformDoc,
) -> Result<(), Stop> {
    let alloc = page.alloc();
    let mut infs = Rows::new(alloc);
    add_inf(alloc, files, &mut infs, &module.inf)?;
    for _ in 0..2000 {
        if !is_known(&infs, &module.inf) {
            return Ok(());
        }
        let wanted = next_wanted(alloc, module, platform, &infs)?;
        if wanted.items().is_empty() {
            let mut book = Book::new(alloc);
            let choice = choose(alloc, book.grant(())?, module, platform, &infs)?;
            tell_choice(page, &checked_copy(alloc, &choice)?);
            return Ok(());
        }
        tell_round(page, wanted.items());
        add_infs(alloc, files, &mut infs, wanted.items())?;
    }
    Err(Stop::Wrong(Wrong::Line("the choice wants too many files")))
}

/// The rounds in which INF files are wanted, and then the choice, for the words `ARCH PLATFORM
/// MODULE`.
pub(crate) fn call_choose(page: &mut Page, files: &[Output], words: &str) -> Result<(), Stop> {
    let alloc = page.alloc();
    let (arch, rest) = first_word(words);
    let (root, inf) = first_word(rest);
    let module = module_named(alloc, arch, inf)?;
    let platform = platform_at(alloc, files, root)?;
    tell_rounds(page, files, &module, &platform)
}
