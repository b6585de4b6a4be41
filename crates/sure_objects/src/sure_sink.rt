//! A sink in memory that never fails.
ghost use Rattle.std.specs.Prelude.{◌≡◌, [], Some, Ok, IfOk, length, slice_get};
ghost use Rattle.std.specs.Option.{option_map};
ghost use Rattle.build_base.specs.MemorySink.{seen_emission};
ghost use Rattle.build_base.specs.Outside.{Emits, Cause, next_call};
ghost use Rattle.build_base.specs.SinkState.{TakesRoom};

use build_base::memory_sink::{MemorySink, Room, Seen};
use build_base::{Rows, Sink, SinkFailed, Target, WantOfMemory};
use std::alloc::Global;
use std::marker::Model;

/// Keeps what is emitted, and tells it exactly as long as there is room. Each call answers.
#[derive(Drop)]
pub struct SureSink {
    sink: MemorySink,
}

impl Model for SureSink {
    ghost use Rattle.std.specs.Prelude.{◌≡◌, []};
    ghost use Rattle.build_base.specs.SinkState.{SinkState};

    ghost Value = { SinkState };

    ghost view = { λ s. s.sink };

    ghost invariant = { λ s. s.sink.fails ≡ [] };
}

impl SureSink {
    /// A sink with this room, whose memory is taken here.
    pub fn new(alloc: Global, room: Room) -> Result<SureSink, WantOfMemory>
        ensures { IfOk result
            (λ s. s
            ≡ record {
              kept = [];
              written = Some [];
              faults = 0;
              calls_left = room.calls;
              bytes_left = room.bytes;
              fails = [];
              calls = 0;
            }) }
    {
        let sink = MemorySink::new(alloc, room, Rows::new(alloc))?;
        Ok(SureSink { sink })
    }

    /// How many emissions are kept.
    pub fn emissions(&self) -> u64
        ensures { result ≡ length self.now.kept }
    {
        self.sink.emissions()
    }

    /// The k-th emission that is kept, from 0.
    pub fn emission(&self, k: u64) -> Option<Seen<'_>>
        ensures { option_map seen_emission result ≡ slice_get self.now.kept k }
    {
        self.sink.emission(k)
    }
}

impl Sink for SureSink {
    ghost written = { λ s. s.written };

    ghost faults = { λ s. 0 };

    fn emit(&mut self, target: &Target, bytes: &[u8]) -> Result<(), SinkFailed>
        ensures written { Emits self.old.written self.new.written target.now bytes.now result }
        ensures cause { Cause 0 0 result }
        ensures told { TakesRoom self.old self.new target.now bytes.now }
        ensures calls { self.new.calls ≡ next_call self.old.calls }
    {
        self.sink.emit(target, bytes)
    }
}
