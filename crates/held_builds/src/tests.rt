//! A build by two workers, of which one is held until the other has begun; all objects stand in
//! memory and never fail.
use build_base::memory_sink::{Kind, Room, Seen};
use build_base::sure_keeper::SureKeeper;
use build_base::{Book, Gate};
use edk_build::{Status, run};
use held_gate::HeldGate;
use selftest_tree::selftest_files;
use std::alloc::{AllocError, Global};
use std::test::Fail;
use std::thread::Threads;
use sure_objects::{SureSink, SureTree};

fn words_of(alloc: Global) -> Result<Vec<String>, AllocError> {
    let mut words = Vec::new(alloc);
    for word in ["build", "-p", "T.dsc", "-n", "2"] {
        words.push(String::from_str(alloc, word)?)?;
    }
    Ok(words)
}

// The emission of a summary.
fn is_summary(seen: Option<Seen<'_>>, summary: &[u8]) -> bool {
    match seen {
        Some(seen) => seen.kind == Kind::Out && seen.bytes == summary,
        None => false,
    }
}

// Builds over these objects behind this gate. Whether all steps ran, and the summary says so.
fn all_ran<H: Threads + Sync, G: Gate>(
    rt: &H,
    alloc: Global,
    gate: &G,
    words: &[String],
    tree: &mut SureTree,
    sink: &mut SureSink,
    keeper: &mut SureKeeper,
) -> bool {
    let mut book = Book::new(alloc);
    let status = run(rt, alloc, words, tree, sink, keeper, gate, &mut book);
    let last = sink.emissions().saturating_sub(1);
    let told = is_summary(sink.emission(last), b"25 steps, 0 reused\n");
    status == Status::Done && book.ran().len() == 25 && told
}

fn builds_tree<H: Threads + Sync, G: Gate>(
    rt: &H,
    alloc: Global,
    gate: &G,
    words: &[String],
    tree: &mut SureTree,
) -> Result<bool, Fail> {
    let room = Room {
        calls: 64,
        bytes: 0x10_0000,
    };
    let mut sink = SureSink::new(alloc, room)?;
    let mut keeper = SureKeeper::new(alloc, None, 0)?;
    Ok(all_ran(rt, alloc, gate, words, tree, &mut sink, &mut keeper))
}

// Builds three modules with two workers.
fn builds_all<H: Threads + Sync, G: Gate>(rt: &H, alloc: Global, gate: &G) -> Result<bool, Fail> {
    let words = words_of(alloc)?;
    let mut tree = SureTree::new(alloc, selftest_files(alloc, 3)?);
    builds_tree(rt, alloc, gate, words.as_slice(), &mut tree)
}

#[test]
fn the_pieces_of_a_wave_run_beside_each_other(rt: HostRuntime) -> Result<(), Fail> {
    let gate = HeldGate::new();
    assert!(rt; builds_all(&rt, rt.alloc(), &gate)?);
    assert!(rt; gate.met() > 0);
    assert_eq!(rt; gate.missed(), 0);
    Ok(())
}
