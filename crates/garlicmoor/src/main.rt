//! The program: it hands the disk, the standard streams and the words of the command line to the
//! build.
#![tactic(auto)]

ghost use Rattle.std.specs.Prelude.{◌≡◌, ◌⊎◌, None, map, option_map, string_bytes, IsSome};
ghost use Rattle.edk_build.specs.Statuses.{OnUsage, OnBuild};
ghost use Rattle.edk_build.specs.Commands.{command_of};
ghost use Rattle.edk_build.specs.History.{IsUsage};
ghost use Rattle.garlicmoor.specs.Told.{status_text, exit_status};

use build_base::Book;
use build_base::disk_sink::DiskSink;
use build_base::disk_tree::DiskTree;
use build_base::open_gate::OpenGate;
use cache_keepers::DiskKeeper;
use edk_build::Status;
use edk_front::run;
use std::process::ExitCode;
use std::rt::Runtime;
use std::thread::Threads;
use std::{env, io};

// What the program answers where the words of the command line can't be had: one isn't UTF-8, or
// memory was wanting.
fn status_without_words(error: &io::Error) -> Status
    ensures { (result ≡ Status.Usage) ⊎ (result ≡ Status.WantOfMemory) }
{
    match error.kind() {
        io::ErrorKind::OutOfMemory => Status::WantOfMemory,
        _ => Status::Usage,
    }
}

// The words behind the program's name.
fn words_of<H: Runtime + AllocGlobal>(rt: &H) -> io::Result<Vec<String>> {
    let mut words = Vec::new(rt.alloc());
    for word in env::args(rt)?.skip(1) {
        words.push(word)?;
    }
    Ok(words)
}

// The status of a run over the disk.
fn status_of<H: Runtime + AllocGlobal + Threads + Sync + Copy>(rt: &H, words: &[String]) -> Status
    ensures usage { OnUsage result (IsUsage None (command_of (map string_bytes words.now))) }
    ensures grammar { OnBuild result (IsSome (command_of (map string_bytes words.now))) }
{
    let alloc = rt.alloc();
    let mut keeper = DiskKeeper::new(*rt);
    let mut tree = DiskTree::new(*rt);
    let mut sink = DiskSink::new(*rt);
    let mut book = Book::new(alloc);
    run(
        rt,
        alloc,
        words,
        &mut tree,
        &mut sink,
        &mut keeper,
        &OpenGate,
        &mut book,
    )
}

fn tell<H: Runtime>(rt: &H, text: &str) {
    let _ = rt.eprintln(text);
}

// What goes to standard error at the end, where the run itself told nothing there.
fn text_of(status: Status) -> Option<&'static str>
    ensures { option_map (λ text. text.now) result ≡ status_text status }
{
    match status {
        Status::ReadFault => Some("read fault"),
        Status::WriteFault => Some("write fault"),
        Status::WantOfMemory => Some("want of memory"),
        Status::Done | Status::FileFault | Status::Usage => None,
    }
}

// The exit status.
fn number_of(status: Status) -> u8
    ensures { result ≡ exit_status status }
{
    status as u8
}

fn main(rt: HostRuntime) -> ExitCode {
    let status = match words_of(&rt) {
        Ok(words) => status_of(&rt, words.as_slice()),
        Err(error) => {
            let status = status_without_words(&error);
            if status == Status::Usage {
                tell(&rt, "usage");
            }
            status
        }
    };
    if let Some(text) = text_of(status) {
        tell(&rt, text);
    }
    ExitCode::from(number_of(status))
}
