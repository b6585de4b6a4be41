//! What was got of a file, with its bytes shared.
ghost use Rattle.std.specs.Prelude.{◌≡◌, IfOk};
ghost use Rattle.build_base.specs.Outside.{got_of};
ghost use Rattle.build_base.specs.World.{file_limit};
ghost use Rattle.step_engine.specs.Meaning.{answer_of};

use crate::talk::Answer;
use build_base::file_limit::FILE_LIMIT;
use build_base::outside::Got;
use build_base::same::Same;
use build_base::text::{Text, WantOfMemory};
use shared_value::Shared;
use std::alloc::Global;
use std::marker::Model;

/// The bytes of a file, that there is none, or that it is over the limit.
#[derive(Drop)]
pub(crate) enum SeenFile {
    Bytes(Shared<Text>),
    Absent,
    TooLong,
}

/// What was got of a file, seen as that. An answer of it takes constant time.
#[derive(Drop)]
pub struct Seen {
    file: SeenFile,
}

impl Model for Seen {
    ghost use Rattle.build_base.specs.declared.outside.Got.{Got};
    ghost use Rattle.step_engine.specs.Seeing.{got_seen};

    ghost Value = { Got };

    ghost view = { λ s. got_seen s.file };
}

impl Seen {
    /// What was got, from now on shared.
    pub fn of(alloc: Global, got: Got) -> Result<Seen, WantOfMemory>
        ensures { IfOk result (λ seen. seen ≡ got) }
    {
        let file = match got {
            Got::File(text) => SeenFile::Bytes(Shared::new(alloc, text)?),
            Got::Absent => SeenFile::Absent,
            Got::TooLong => SeenFile::TooLong,
        };
        Ok(Seen { file })
    }

    /// What stands at a path that has an edit.
    pub(crate) fn of_edit(alloc: Global, bytes: &Option<Shared<Text>>) -> Result<Seen, WantOfMemory>
        ensures { IfOk result (λ seen. seen ≡ got_of file_limit bytes.now) }
    {
        let file = match bytes {
            None => SeenFile::Absent,
            Some(bytes) => {
                if bytes.value().bytes().len() as u64 <= FILE_LIMIT {
                    SeenFile::Bytes(bytes.copy(alloc)?)
                } else {
                    SeenFile::TooLong
                }
            }
        };
        Ok(Seen { file })
    }

    /// The answer that it gives.
    pub fn answer<O>(&self, alloc: Global) -> Result<Answer<O>, WantOfMemory>
        ensures { IfOk result (λ answer. answer ≡ answer_of self.now) }
    {
        match &self.file {
            SeenFile::Bytes(bytes) => Ok(Answer::Bytes(bytes.copy(alloc)?)),
            SeenFile::Absent => Ok(Answer::Absent),
            SeenFile::TooLong => Ok(Answer::TooLong),
        }
    }
}
