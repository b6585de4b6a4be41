//! Builds by small rules: from scratch, from what an earlier build left, from caches that are
//! wrong, and of many ranks.
use crate::small_rules::SmallRules;
use build_base::memory_tree::MemoryTree;
use build_base::open_gate::OpenGate;
use build_base::{Book, Gate, Path, Rows, Text, WantOfMemory};
use held_gate::HeldGate;
use shared_value::Shared;
use std::alloc::Global;
use std::process::Abort;
use std::test::Fail;
use std::thread::Threads;
use step_engine::{
    Answer, Ask, Batch, Brought, Cache, Edits, EngineRefusal, Entry, Outcome, Pair, Talk, bring,
    bring_over,
};

// The files `a` and `b`, where they have bytes, and the numbers of the reads that fail.
fn tree(alloc: Global, a: &[u8], b: &[u8], fails: Rows<u64>) -> Result<MemoryTree, Fail> {
    let mut files = MemoryTree::new(alloc, Rows::new(alloc), fails);
    if !a.is_empty() {
        files.put(Path::new(alloc, b"a")?, Text::of(alloc, a)?)?;
    }
    if !b.is_empty() {
        files.put(Path::new(alloc, b"b")?, Text::of(alloc, b)?)?;
    }
    Ok(files)
}

// The fields `x` and `y`.
fn job(alloc: Global) -> Result<Rows<Text>, WantOfMemory> {
    let mut fields = Rows::new(alloc);
    fields.push(Text::of(alloc, b"x")?)?;
    fields.push(Text::of(alloc, b"y")?)?;
    Ok(fields)
}

// A text that may be held by many.
fn shared_text(alloc: Global, bytes: &[u8]) -> Result<Shared<Text>, WantOfMemory> {
    Shared::new(alloc, Text::of(alloc, bytes)?)
}

// The keys that ran, in ascending order.
fn sorted_keys(alloc: Global, book: &Book<u32>) -> Result<Vec<u32>, Fail> {
    let mut keys = Vec::from_slice(alloc, book.ran())?;
    keys.sort()?;
    Ok(keys)
}

type Small = Brought<u32, Text>;

fn build<H: Threads + Sync, G: Gate>(
    rt: &H,
    alloc: Global,
    top: u32,
    cache: Cache<u32, Text>,
    files: MemoryTree,
    book: &mut Book<u32>,
    gate: &G,
) -> Result<Small, EngineRefusal> {
    let mut files = files;
    let fields = job(alloc)?;
    bring(
        rt,
        alloc,
        &SmallRules,
        top,
        &fields,
        cache,
        &mut files,
        book,
        2,
        gate,
    )
}

// Builds key 2 of these files, and compares its bytes (none: a fault) and the keys that ran.
fn build_both<H: Threads + Sync + Abort>(
    rt: &H,
    alloc: Global,
    cache: Cache<u32, Text>,
    a: &[u8],
    b: &[u8],
    wanted: &[u8],
    ran: &[u32],
) -> Result<Cache<u32, Text>, Fail> {
    let mut book = Book::new(alloc);
    let files = tree(alloc, a, b, Rows::new(alloc))?;
    let gate = HeldGate::new();
    let brought = build(rt, alloc, 2, cache, files, &mut book, &gate)?;
    // The turns of keys 0 and 1 go in two waves, where both run.
    let waves = if ran.contains(&0) { 2 } else { 0 };
    assert_eq!(rt; gate.met(), waves);
    assert_eq!(rt; gate.missed(), 0);
    match &brought.result {
        Outcome::Good(text) => assert_eq!(rt; text.value().bytes(), wanted),
        Outcome::Bad(fault) => {
            assert_eq!(rt; fault.value().code, 103);
            assert!(rt; wanted.is_empty());
        }
    }
    assert_eq!(rt; brought.needed, 3);
    assert_eq!(rt; sorted_keys(alloc, &book)?.as_slice(), ran);
    Ok(brought.cache)
}

#[test]
fn an_edit_runs_what_it_touches(rt: HostRuntime) -> Result<(), Fail> {
    let alloc = rt.alloc();
    let cache = build_both(
        &rt,
        alloc,
        Cache::new(alloc),
        b"A",
        b"B",
        b"AxBy",
        &[0, 1, 2],
    )?;
    let cache = build_both(&rt, alloc, cache, b"A", b"B", b"AxBy", &[])?;
    let cache = build_both(&rt, alloc, cache, b"A", b"C", b"AxCy", &[1, 2])?;
    // Neither file is there: the fault of the first is given.
    let cache = build_both(&rt, alloc, cache, b"", b"", b"", &[0, 1, 2])?;
    assert_eq!(rt; cache.entries().len(), 3);
    Ok(())
}

// An entry of a key with one batch of one ask, and these bytes for its answer and its result.
fn entry(
    alloc: Global,
    key: u32,
    ask: Ask<u32>,
    answer: Answer<Text>,
) -> Result<Entry<u32, Text>, WantOfMemory> {
    let mut pairs = Rows::new(alloc);
    pairs.push(Pair { ask, answer })?;
    let mut batches = Rows::new(alloc);
    batches.push(Batch { pairs })?;
    Ok(Entry {
        key,
        talk: Shared::new(alloc, Talk { batches })?,
        result: Outcome::Good(shared_text(alloc, b"lie")?),
    })
}

#[test]
fn an_entry_that_lies_counts_as_none(rt: HostRuntime) -> Result<(), Fail> {
    let alloc = rt.alloc();
    let mut cache = Cache::new(alloc);
    let file = Ask::File(Path::new(alloc, b"b")?);
    let bytes = Answer::Bytes(shared_text(alloc, b"Z")?);
    cache.put(entry(alloc, 1, file, bytes)?)?;
    let itself = Answer::Part(Outcome::Good(shared_text(alloc, b"lie")?));
    cache.put(entry(alloc, 2, Ask::Part(2), itself)?)?;
    assert_eq!(rt; cache.entries().len(), 2);
    build_both(&rt, alloc, cache, b"A", b"B", b"AxBy", &[0, 1, 2])?;
    Ok(())
}

#[test]
fn each_read_that_fails_is_a_read_fault(rt: HostRuntime) -> Result<(), Fail> {
    let alloc = rt.alloc();
    for call in 1..4 {
        let mut fails = Rows::new(alloc);
        fails.push(call)?;
        let mut book = Book::new(alloc);
        let files = tree(alloc, b"A", b"B", fails)?;
        let brought = build(
            &rt,
            alloc,
            2,
            Cache::new(alloc),
            files,
            &mut book,
            &OpenGate,
        );
        match brought {
            Ok(_) => assert_eq!(rt; call, 3),
            Err(refusal) => {
                assert_eq!(rt; refusal, EngineRefusal::ReadFault);
                assert!(rt; call < 3);
            }
        }
    }
    Ok(())
}

#[test]
fn old_entries_of_other_keys_stay_after_a_fault_alone(rt: HostRuntime) -> Result<(), Fail> {
    let alloc = rt.alloc();
    for (b, left) in [(b"B".as_slice(), 1), (b"".as_slice(), 2)] {
        let mut cache = Cache::new(alloc);
        let field = Answer::Field(shared_text(alloc, b"x")?);
        cache.put(entry(alloc, 9, Ask::Field(0), field)?)?;
        let mut book = Book::new(alloc);
        let files = tree(alloc, b"A", b, Rows::new(alloc))?;
        let brought = build(&rt, alloc, 1, cache, files, &mut book, &OpenGate)?;
        assert_eq!(rt; brought.cache.entries().len(), left);
        let mut cache = brought.cache;
        cache.keep(&|key: &u32| -> bool { *key != 1 });
        assert_eq!(rt; cache.entries().len() + 1, left);
    }
    Ok(())
}

#[test]
fn an_edit_stands_in_place_of_the_file(rt: HostRuntime) -> Result<(), Fail> {
    let alloc = rt.alloc();
    let mut edits = Edits::new(alloc);
    edits.drop_file(Path::new(alloc, b"b")?)?;
    edits.put(Path::new(alloc, b"b")?, shared_text(alloc, b"C")?)?;
    let mut files = tree(alloc, b"A", b"B", Rows::new(alloc))?;
    let mut book = Book::new(alloc);
    let fields = job(alloc)?;
    let brought = bring_over(
        &rt,
        alloc,
        &SmallRules,
        1,
        &fields,
        Cache::new(alloc),
        &mut files,
        &edits,
        &mut book,
        1,
        &OpenGate,
    )?;
    match &brought.result {
        Outcome::Good(text) => assert_eq!(rt; text.value().bytes(), b"Cy".as_slice()),
        Outcome::Bad(_fault) => assert!(rt; false),
    }
    assert_eq!(rt; files.reads().len(), 0);
    Ok(())
}

#[test]
fn ranks_may_be_many(rt: HostRuntime) -> Result<(), Fail> {
    let alloc = rt.alloc();
    let mut cache = Cache::new(alloc);
    for steps in [131_074, 0] {
        let mut files = tree(alloc, b"", b"", Rows::new(alloc))?;
        files.put(Path::new(alloc, b"b")?, Text::of(alloc, b"B")?)?;
        let mut book = Book::new(alloc);
        let brought = build(&rt, alloc, 131_073, cache, files, &mut book, &OpenGate)?;
        assert_eq!(rt; book.ran().len(), steps);
        assert_eq!(rt; brought.needed, 131_074);
        cache = brought.cache;
    }
    Ok(())
}
