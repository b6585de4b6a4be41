//! The keeper of the disk, in an empty folder.
use build_base::Keeper;
use cache_keepers::DiskKeeper;
use std::fs;
use std::rt::Runtime;

fn keeps<K: Keeper>(keeper: &mut K, bytes: &[u8]) -> bool {
    match keeper.load() {
        Ok(Some(text)) => text.bytes() == bytes,
        _ => false,
    }
}

fn keeps_nothing<K: Keeper>(keeper: &mut K) -> bool {
    match keeper.load() {
        Ok(None) => true,
        _ => false,
    }
}

// A stored text is kept, and the next one takes its place.
fn keeps_the_last<R: Runtime + AllocGlobal + Copy>(rt: R) -> bool {
    let mut keeper = DiskKeeper::new(rt);
    keeps_nothing(&mut keeper)
        && keeper.store(b"an older and longer text".as_slice()).is_ok()
        && keeper.store(b"abc".as_slice()).is_ok()
        && keeps(&mut keeper, b"abc")
        && fs::metadata(&rt, ".edk_steps.new").is_err()
}

// What a store left that was cut is replaced by the next one.
fn replaces_what_was_cut<R: Runtime + AllocGlobal + Copy>(rt: R) -> bool {
    let mut keeper = DiskKeeper::new(rt);
    fs::write(&rt, ".edk_steps.new", "a text that a cut store left").is_ok()
        && keeps(&mut keeper, b"abc")
        && keeper.store(b"new".as_slice()).is_ok()
        && keeps(&mut keeper, b"new")
        && fs::metadata(&rt, ".edk_steps.new").is_err()
}

// A store that fails leaves the old text.
fn fails_and_keeps<R: Runtime + AllocGlobal + Copy>(rt: R) -> bool {
    let mut keeper = DiskKeeper::new(rt);
    fs::create_dir_all(&rt, ".edk_steps.new").is_ok()
        && keeper.store(b"newer".as_slice()).is_err()
        && keeps(&mut keeper, b"new")
        && fs::remove_dir_all(&rt, ".edk_steps.new").is_ok()
}

// What is no regular file keeps nothing, and is never written.
fn passes_a_folder_by<R: Runtime + AllocGlobal + Copy>(rt: R) -> bool {
    let mut keeper = DiskKeeper::new(rt);
    fs::remove_file(&rt, ".edk_steps").is_ok()
        && fs::create_dir_all(&rt, ".edk_steps").is_ok()
        && keeps_nothing(&mut keeper)
        && keeper.store(b"abc".as_slice()).is_err()
        && fs::remove_dir_all(&rt, ".edk_steps").is_ok()
}

#[test]
fn a_text_is_kept(rt: HostRuntime) {
    assert!(rt; keeps_the_last(rt));
    assert!(rt; replaces_what_was_cut(rt));
    assert!(rt; fails_and_keeps(rt));
    assert!(rt; passes_a_folder_by(rt));
}
