//! A call of the keeper in memory.

use build_base::outside::Keeper;
use build_base::sure_keeper::SureKeeper;
use build_base::{KeeperFailed, Text};
use case_player::{Output, Page, Stop, Wrong, file_of};

/// The file `loaded`, which a keeper of the file's bytes tells.
pub(crate) fn call_keeper(page: &mut Page, files: &[Output], path: &str) -> Result<(), Stop> {
    let alloc = page.alloc();
    let kept = Text::of(alloc, file_of(files, path)?)?;
    let mut keeper = SureKeeper::new(alloc, Some(kept), 0)?;
    match keeper.load() {
        Ok(Some(text)) => page.file(b"loaded", text.bytes()),
        Ok(None) => page.put(b"none\n"),
        Err(KeeperFailed::WantOfMemory) => return Err(Stop::Wrong(Wrong::WantOfMemory)),
        Err(_) => page.fail(b"failed\n"),
    }
    Ok(())
}
