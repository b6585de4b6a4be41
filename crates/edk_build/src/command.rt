//! What the words of the command line are.
use build_base::Path;
use job_fields::Job;

/// A build, a replay of a script, a selftest with so many modules, or the listing of an image.
#[derive(Drop)]
pub enum Command {
    Build(Job),
    Replay(Path),
    Selftest(u64),
    Volinfo(Path),
}
