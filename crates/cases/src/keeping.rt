//! Runs one after the other with one keeper in memory, as the lines of a file of the case say. Each
//! run tells a line: its status, what is kept then, and what it wrote to the streams.

use crate::building::build_with;
use build_base::memory_sink::SinkFail;
use build_base::{Rows, Text};
use cache_keepers::{KeeperFail, Left, MemoryKeeper};
use case_player::{Objects, Output, Page, Told, Wrong, first_word, text_of};
use std::alloc::Global;
use std::thread::Threads;

/// The most bytes of a text that is kept.
const ROOM: u64 = 0x40_0000;

// The files, what is kept, what fails in the next run, and what came of the last one.
struct Scene {
    alloc: Global,
    files: Vec<Output>,
    kept: Option<Vec<u8>>,
    objects: Objects,
    fails: Vec<KeeperFail>,
    last: Told,
}

// A written `Drop` is one call for whoever lets the value go. A derived one is spelled out there.
impl Drop for Scene {
    fn drop(self) {
        let Scene {
            alloc: _alloc,
            files: _files,
            kept: _kept,
            objects: _objects,
            fails: _fails,
            last: _last,
        } = self;
    }
}

// What came of a run, and what is kept then.
#[derive(Drop)]
struct Ran {
    told: Told,
    left: Option<Vec<u8>>,
}

fn number(text: &str) -> Result<u64, Wrong> {
    match u64::from_str_radix(text.trim_ascii(), 10) {
        Ok(number) => Ok(number),
        Err(_) => Err(Wrong::Line("a number is wanted")),
    }
}

fn left_of(text: &str) -> Result<Left, Wrong> {
    match text {
        "old" => Ok(Left::Old),
        "nothing" => Ok(Left::Nothing),
        count => Ok(Left::Prefix(number(count)?)),
    }
}

fn keeper_of(
    alloc: Global,
    kept: Option<&[u8]>,
    fails: &[KeeperFail],
) -> Result<MemoryKeeper, Wrong> {
    let text = match kept {
        Some(bytes) => Some(Text::of(alloc, bytes)?),
        None => None,
    };
    let fails = Vec::from_slice(alloc, fails)?;
    Ok(MemoryKeeper::new(alloc, text, ROOM, Rows::from_vec(fails))?)
}

fn copy_kept(alloc: Global, bytes: Option<&[u8]>) -> Result<Option<Vec<u8>>, Wrong> {
    match bytes {
        Some(bytes) => Ok(Some(Vec::from_slice(alloc, bytes)?)),
        None => Ok(None),
    }
}

fn copy_files(alloc: Global, files: &[Output]) -> Result<Vec<Output>, Wrong> {
    let mut copies = Vec::new(alloc);
    for file in files {
        copies.push(Output::new(alloc, file.path.as_slice(), file.bytes.as_slice())?)?;
    }
    Ok(copies)
}

fn bytes_in(kept: &Option<Vec<u8>>) -> Option<&[u8]> {
    match kept {
        Some(bytes) => Some(bytes.as_slice()),
        None => None,
    }
}

// A run by this keeper.
fn run_with<H: AllocGlobal + Threads + Sync>(
    rt: &H,
    scene: &Scene,
    words: &str,
    keeper: &mut MemoryKeeper,
) -> Result<Ran, Wrong> {
    let told = build_with(rt, scene.files.as_slice(), &scene.objects, words, keeper)?;
    let left = copy_kept(scene.alloc, keeper.kept())?;
    Ok(Ran { told, left })
}

// A run from what is kept.
fn run_once<H: AllocGlobal + Threads + Sync>(
    rt: &H,
    scene: &Scene,
    kept: Option<&[u8]>,
    words: &str,
) -> Result<Ran, Wrong> {
    let mut keeper = keeper_of(scene.alloc, kept, scene.fails.as_slice())?;
    run_with(rt, scene, words, &mut keeper)
}

// What is kept: a text longer than the head of one isn't counted.
fn tell_kept(page: &mut Page, now: Option<&[u8]>) {
    match now {
        None => page.word(b"nothing"),
        Some(bytes) => {
            if bytes.len() < 36 {
                page.number(bytes.len() as u64);
                page.word(b"bytes");
            } else {
                page.word(b"another text");
            }
        }
    }
}

// What was written to a stream, and a line feed where it has none.
fn tell_stream(page: &mut Page, text: &[u8]) {
    page.put(text);
    match text.last() {
        None | Some(b'\n') => {}
        Some(_) => page.end(),
    }
}

// What came of a run, before which this was kept.
fn tell_run(page: &mut Page, before: Option<&[u8]>, ran: &Ran) {
    let now = bytes_in(&ran.left);
    page.put(b"status");
    page.number(ran.told.status);
    page.put(b", kept");
    if before == now {
        page.word(b"as before");
    } else {
        tell_kept(page, now);
    }
    page.end();
    tell_stream(page, ran.told.out.as_slice());
    tell_stream(page, ran.told.err.as_slice());
}

fn run_next<H: AllocGlobal + Threads + Sync>(
    rt: &H,
    scene: &mut Scene,
    page: &mut Page,
    words: &str,
) -> Result<(), Wrong> {
    let ran = run_once(rt, scene, bytes_in(&scene.kept), words)?;
    tell_run(page, bytes_in(&scene.kept), &ran);
    let Ran { told, left } = ran;
    scene.last = told;
    scene.kept = left;
    scene.objects = Objects::new(scene.alloc);
    scene.fails.clear();
    Ok(())
}

// What a run from these bytes tells, where all of them are kept.
fn run_cut<H: AllocGlobal + Threads + Sync>(
    rt: &H,
    scene: &Scene,
    front: &[u8],
    words: &str,
) -> Result<Told, Wrong> {
    let ran = run_once(rt, scene, Some(front), words)?;
    let mut page = Page::new(scene.alloc);
    tell_run(&mut page, bytes_in(&scene.kept), &ran);
    page.into_told(Ok(()))
}

// A run from each strict prefix of what is kept: what differs from the run before is told.
fn run_cuts<H: AllocGlobal + Threads + Sync>(
    rt: &H,
    scene: &Scene,
    page: &mut Page,
    words: &str,
) -> Result<(), Wrong> {
    let whole = match bytes_in(&scene.kept) {
        Some(whole) => whole,
        None => return Err(Wrong::Line("nothing is kept")),
    };
    let mut last = Told::new(scene.alloc);
    for count in 0..whole.len() {
        let front = whole.get(..count).unwrap_or(whole);
        let told = run_cut(rt, scene, front, words)?;
        if told.out.as_slice() != last.out.as_slice() {
            page.put(told.out.as_slice());
            last = told;
        }
    }
    Ok(())
}

fn copy_file(scene: &mut Scene, rest: &str) -> Result<(), Wrong> {
    let (from, to) = first_word(rest);
    let to = to.trim_ascii();
    let text = text_of(scene.files.as_slice(), from)?;
    let copy = Output::new(scene.alloc, to.as_bytes(), text.as_bytes())?;
    scene
        .files
        .retain(|file| file.path.as_slice() != to.as_bytes());
    scene.files.push(copy)?;
    Ok(())
}

// Writes a byte into the edition of what is kept.
fn set_edition(scene: &mut Scene, rest: &str) -> Result<(), Wrong> {
    let Ok(edition) = rest.trim_ascii().parse::<u8>() else {
        return Err(Wrong::Line("an edition is a byte"));
    };
    if let Some(kept) = &mut scene.kept {
        if let Some(byte) = kept.get_mut(8) {
            *byte = edition;
        }
    }
    Ok(())
}

fn plan(scene: &mut Scene, word: &str, rest: &str) -> Result<(), Wrong> {
    let (first, second) = first_word(rest);
    let call = number(first)?;
    match word {
        "read" => scene.objects.failing_reads.push(call)?,
        "write" => {
            let kept = number(second)?;
            scene.objects.failing_writes.push(SinkFail { call, kept })?;
        }
        _ => {
            let left = left_of(second.trim_ascii())?;
            scene.fails.push(KeeperFail { call, left })?;
        }
    }
    Ok(())
}

fn keep_text(scene: &mut Scene, text: &str) -> Result<(), Wrong> {
    scene.kept = Some(Vec::from_slice(scene.alloc, text.as_bytes())?);
    Ok(())
}

fn follow<H: AllocGlobal + Threads + Sync>(
    rt: &H,
    scene: &mut Scene,
    page: &mut Page,
    line: &str,
) -> Result<(), Wrong> {
    let (word, rest) = first_word(line);
    match word {
        "run" => run_next(rt, scene, page, rest),
        "cuts" => run_cuts(rt, scene, page, rest),
        "copy" => copy_file(scene, rest),
        "text" => keep_text(scene, rest),
        "edition" => set_edition(scene, rest),
        "read" | "write" | "keeper" => plan(scene, word, rest),
        _ => Err(Wrong::Line("this is no line of runs")),
    }
}

fn scene_of(alloc: Global, files: &[Output]) -> Result<Scene, Wrong> {
    Ok(Scene {
        alloc,
        files: copy_files(alloc, files)?,
        kept: None,
        objects: Objects::new(alloc),
        fails: Vec::new(alloc),
        last: Told::new(alloc),
    })
}

fn follow_all<H: AllocGlobal + Threads + Sync>(
    rt: &H,
    scene: &mut Scene,
    page: &mut Page,
    text: &str,
) -> Result<(), Wrong> {
    for line in text.lines() {
        follow(rt, scene, page, line)?;
    }
    Ok(())
}

// What was told, with the steps and the files of the last run.
fn told_of(page: Page, scene: &mut Scene) -> Result<Told, Wrong> {
    let mut told = page.into_told(Ok(()))?;
    told.steps = scene.last.steps;
    told.files = std::mem::replace(&mut scene.last.files, Vec::new(scene.alloc));
    Ok(told)
}

/// What comes of the runs of a file of the case, the last of which tells its files.
pub fn runs<H: AllocGlobal + Threads + Sync>(
    rt: &H,
    files: &[Output],
    path: &str,
) -> Result<Told, Wrong> {
    let alloc = rt.alloc();
    let text = text_of(files, path)?;
    let mut scene = scene_of(alloc, files)?;
    let mut page = Page::new(alloc);
    match follow_all(rt, &mut scene, &mut page, text) {
        Ok(()) => told_of(page, &mut scene),
        Err(wrong) => Err(wrong),
    }
}
