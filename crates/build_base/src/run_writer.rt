//! Writing an image, run by run.
ghost use Rattle.std.specs.Prelude.{◌≡◌, ◌≤◌, ◌<◌, ◌^◌, ◌+◌, ◌-◌, ◌++◌, [], true, length, replicate, OnOk};
ghost use Rattle.build_base.specs.Runs.{free_byte, runs_bytes, kept_bytes, are_blank, is_blank, run_bytes, run_kept, Written};

use crate::blank::free_byte;
use crate::rows::Rows;
use crate::run::Run;
use crate::same::Same;
use crate::text::{Text, WantOfMemory};
use std::alloc::Global;
use std::marker::Model;

/// The runs of an image so far. Contracts see its bytes, and how many of them are kept as bytes.
#[derive(Debug, Drop)]
pub struct RunWriter {
    runs: Rows<Run>,
    size: u64,
    free: u8,
}

impl Model for RunWriter {
    ghost use Rattle.std.specs.Prelude.{◌≡◌, true, length};
    ghost use Rattle.build_base.specs.Runs.{Written, runs_bytes, kept_bytes, are_blank, is_free};

    ghost Value = { Written };

    ghost view = { λ w.
        record { bytes = runs_bytes w.runs; kept = kept_bytes w.runs; free = w.free } };

    ghost invariant = { λ w. (w.size ≡ length (runs_bytes w.runs)) × (are_blank w.runs ≡ true)
        × (is_free w.free ≡ true) };
}

impl RunWriter {
    #[tactic(auto, unfolding(crate::specs::Runs::runs_bytes, crate::specs::Runs::kept_bytes, crate::specs::Runs::are_blank))]
    /// Nothing yet, over flash of this erase polarity.
    pub fn new(alloc: Global, erase: u8) -> RunWriter
        ensures { result ≡ record { bytes = []; kept = 0; free = free_byte erase } }
    {
        RunWriter {
            runs: Rows::new(alloc),
            size: 0,
            free: free_byte(erase),
        }
    }

    /// How many bytes are written.
    pub fn length(&self) -> u64
        ensures { result ≡ length self.now.bytes }
    {
        self.size
    }

    fn append(&mut self, run: Run, count: u64) -> Result<(), WantOfMemory>
        requires count { count ≡ length (run_bytes run) }
        requires blank { is_blank run ≡ true }
        ensures bytes { OnOk result (self.new.bytes ≡ self.old.bytes ++ run_bytes run) }
        ensures kept { OnOk result (self.new.kept ≡ self.old.kept + run_kept run) }
        ensures free { OnOk result (self.new.free ≡ self.old.free) }
    {
        let size = match self.size.checked_add(count) {
            Some(size) => size,
            None => return Err(WantOfMemory),
        };
        self.runs.push(run)?;
        self.size = size;
        Ok(())
    }

    /// Writes so many bytes of erased flash.
    pub fn fill(&mut self, count: u64) -> Result<(), WantOfMemory>
        ensures bytes { OnOk result (self.new.bytes
            ≡ self.old.bytes ++ replicate count self.old.free) }
        ensures kept { OnOk result (self.new.kept ≡ self.old.kept) }
        ensures free { OnOk result (self.new.free ≡ self.old.free) }
    {
        if count == 0 {
            return Ok(());
        }
        let byte = self.free;
        self.append(Run::Fill { byte, count }, count)?;
        Ok(())
    }

    /// Writes bytes as they are.
    pub fn put(&mut self, bytes: Text) -> Result<(), WantOfMemory>
        ensures bytes { OnOk result (self.new.bytes ≡ self.old.bytes ++ bytes) }
        ensures kept { OnOk result (self.new.kept ≡ self.old.kept + length bytes) }
        ensures free { OnOk result (self.new.free ≡ self.old.free) }
    {
        let count = bytes.bytes().len() as u64;
        self.append(Run::Bytes(bytes), count)?;
        Ok(())
    }

    /// Writes the free space before a place, and the bytes that stand there.
    pub fn put_at(&mut self, start: u64, bytes: Text) -> Result<(), WantOfMemory>
        requires { length self.old.bytes ≤ start }
        ensures bytes { OnOk result (self.new.bytes
            ≡ (self.old.bytes ++ replicate (start - length self.old.bytes) self.old.free)
            ++ bytes) }
        ensures kept { OnOk result (self.new.kept ≡ self.old.kept + length bytes) }
        ensures free { OnOk result (self.new.free ≡ self.old.free) }
    {
        self.fill(start - self.length())?;
        self.put(bytes)?;
        Ok(())
    }

    /// Writes what these runs stand for.
    pub fn put_runs(&mut self, alloc: Global, runs: &[Run]) -> Result<(), WantOfMemory>
        requires { are_blank runs.now ≡ true }
        ensures bytes { OnOk result (self.new.bytes ≡ self.old.bytes ++ runs_bytes runs.now) }
        ensures kept { OnOk result (self.new.kept ≤ self.old.kept + length (runs_bytes runs.now)) }
        ensures free { OnOk result (self.new.free ≡ self.old.free) }
    {
        for run in runs {
            self.append(run.copy(alloc)?, run.length())?;
        }
        Ok(())
    }

    /// What is written.
    pub fn finish(self) -> Rows<Run>
        ensures bytes { runs_bytes result ≡ self.bytes }
        ensures kept { kept_bytes result ≡ self.kept }
        ensures blank { are_blank result ≡ true }
        ensures short { length (runs_bytes result) < 2 ^ 64 }
    {
        self.runs
    }
}
