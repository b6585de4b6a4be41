//! The words of the command line.
ghost use Rattle.std.specs.Prelude.{◌≡◌, IfOk, map, string_bytes};
ghost use Rattle.build_base.specs.Path.{path_field};
ghost use Rattle.edk_build.specs.Commands.{build_from, replay_from, selftest_from, volinfo_from, command_of};
ghost use Rattle.selftest_tree.specs.Count.{count_of};

use crate::command::Command;
use build_base::WantOfMemory;
use build_base::path::path_field;
use build_words::words_job;
use selftest_tree::count_of;
use std::alloc::Global;

fn build_from(alloc: Global, words: &[String]) -> Result<Option<Command>, WantOfMemory>
    ensures { IfOk result (λ command. command ≡ build_from (map string_bytes words.now)) }
{
    match words_job(alloc, words)? {
        Some(job) => Ok(Some(Command::Build(job))),
        None => Ok(None),
    }
}

fn replay_from(alloc: Global, path: &[u8]) -> Result<Option<Command>, WantOfMemory>
    ensures { IfOk result (λ command. command ≡ replay_from (path_field path.now)) }
{
    match path_field(alloc, path)? {
        Some(path) => Ok(Some(Command::Replay(path))),
        None => Ok(None),
    }
}

fn volinfo_from(alloc: Global, path: &[u8]) -> Result<Option<Command>, WantOfMemory>
    ensures { IfOk result (λ command. command ≡ volinfo_from (path_field path.now)) }
{
    match path_field(alloc, path)? {
        Some(path) => Ok(Some(Command::Volinfo(path))),
        None => Ok(None),
    }
}

fn selftest_from(count: &[u8]) -> Option<Command>
    ensures { result ≡ selftest_from (count_of count.now) }
{
    match count_of(count) {
        Some(count) => Some(Command::Selftest(count)),
        None => None,
    }
}

/// What the words of the command line are, or nothing where they aren't in the grammar.
#[tactic(auto, unfolding(crate::specs::Commands::command_of))]
pub fn command_of(alloc: Global, words: &[String]) -> Result<Option<Command>, WantOfMemory>
    ensures { IfOk result (λ command. command ≡ command_of (map string_bytes words.now)) }
{
    match words {
        [command, word] => {
            if command.as_str() == "replay" {
                return replay_from(alloc, word.as_bytes());
            }
            if command.as_str() == "selftest" {
                return Ok(selftest_from(word.as_bytes()));
            }
            if command.as_str() == "volinfo" {
                return volinfo_from(alloc, word.as_bytes());
            }
            build_from(alloc, words)
        }
        _ => build_from(alloc, words),
    }
}
