//! A keeper in memory, whose room is made before, and which fails at the calls of a list.
ghost use Rattle.std.specs.Prelude.{◌≡◌, ◌≤◌, IfOk, IfSome, Some, Err, length};
ghost use Rattle.std.specs.Option.{option_map};
ghost use Rattle.build_base.specs.Keeping.{KeeperCause, Stores};
ghost use Rattle.build_base.specs.Outside.{next_call};
ghost use Rattle.cache_keepers.specs.Failing.{FailsWhere, left_at, stored};
ghost use Rattle.build_base.specs.declared.outside.KeeperFailed.TheVariants.{WantOfMemory as Wanting};

use build_base::sure_keeper::SureKeeper;
use build_base::{Keeper, KeeperFailed, Rows, Text, WantOfMemory};
use std::alloc::Global;
use std::marker::Model;

/// What a store that fails leaves: the old bytes, nothing, or so many of the new ones.
#[derive(Clone, Copy, PartialEq, Eq)]
pub enum Left {
    Old,
    Nothing,
    Prefix(u64),
}

/// A call that fails, counted from 1, and what it leaves if it is a store. A load leaves all as it
/// is.
#[derive(Clone, Copy)]
pub struct KeeperFail {
    pub call: u64,
    pub left: Left,
}

/// Keeps one text of up to a number of bytes, for which its memory is taken at the start. It tells
/// what it keeps until it is given a longer one.
#[derive(Drop)]
pub struct MemoryKeeper {
    keeper: SureKeeper,
    room: u64,
    tells: bool,
    empty: bool,
    fails: Rows<KeeperFail>,
    calls: u64,
    faults: u64,
}

impl Model for MemoryKeeper {
    ghost use Rattle.std.specs.Prelude.{◌≡◌, ◌≤◌, None, Some, IsSome, true, if◌then◌else◌};
    ghost use Rattle.cache_keepers.specs.Failing.{MemoryKeeperState};

    ghost Value = { MemoryKeeperState };

    ghost view = { λ k. record {
      kept = if k.tells then if k.empty then Some None else k.keeper.kept else None;
      room = k.room;
      faults = k.faults;
      fails = k.fails;
      calls = k.calls;
    } };

    ghost invariant = { λ k. (k.room ≤ k.keeper.room) × (k.tells ≡ true → IsSome k.keeper.kept) };
}

impl MemoryKeeper {
    /// A keeper of this text, with room for `room` bytes, whose calls of the list fail.
    pub fn new(
        alloc: Global,
        kept: Option<Text>,
        room: u64,
        fails: Rows<KeeperFail>,
    ) -> Result<MemoryKeeper, WantOfMemory>
        ensures { IfOk result
            (λ k. k
            ≡ record { kept = Some kept; room = room; faults = 0; fails = fails; calls = 0 }) }
    {
        let keeper = SureKeeper::new(alloc, kept, room)?;
        Ok(MemoryKeeper {
            keeper,
            room,
            tells: true,
            empty: false,
            fails,
            calls: 0,
            faults: 0,
        })
    }

    /// What it keeps.
    pub fn kept(&self) -> Option<&[u8]>
        ensures { IfSome self.now.kept (λ there. option_map (λ bytes. bytes.now) result ≡ there) }
    {
        if self.empty { None } else { self.keeper.kept() }
    }

    // Keeps all that it is given, where there is room.
    fn keep(&mut self, bytes: &[u8])
        requires { length bytes.now ≤ self.old.room }
        ensures { self.new
            ≡ record {
              kept = option_map (λ there. Some bytes.now) self.old.kept;
              room = self.old.room;
              faults = self.old.faults;
              fails = self.old.fails;
              calls = self.old.calls;
            } }
    {
        if self.tells {
            let _ = self.keeper.store(bytes);
            self.empty = false;
        }
    }

    // Keeps what a store leaves.
    fn change(&mut self, left: Option<Left>, bytes: &[u8])
        ensures { self.new
            ≡ record {
              kept = stored left self.old.kept self.old.room bytes.now;
              room = self.old.room;
              faults = self.old.faults;
              fails = self.old.fails;
              calls = self.old.calls;
            } }
    {
        if bytes.len() as u64 > self.room {
            self.tells = false;
            return;
        }
        match left {
            None => self.keep(bytes),
            Some(Left::Old) => {}
            Some(Left::Nothing) => self.empty = true,
            Some(Left::Prefix(count)) => {
                let end = (count as usize).min(bytes.len());
                self.keep(&bytes[..end]);
            }
        }
    }
}

// What a call that fails leaves.
fn left_at(fails: &[KeeperFail], call: u64) -> Option<Left>
    ensures { result ≡ left_at fails.now call }
{
    for fail in fails {
        if fail.call == call {
            return Some(fail.left);
        }
    }
    None
}

impl Keeper for MemoryKeeper {
    ghost kept = { λ k. k.kept };

    ghost faults = { λ k. k.faults };

    fn load(&mut self) -> Result<Option<Text>, KeeperFailed>
        ensures kept { self.new.kept ≡ self.old.kept }
        ensures loads { IfOk result (λ text. IfSome self.old.kept (λ there. text ≡ there)) }
        ensures cause { KeeperCause self.old.faults self.new.faults result }
        ensures room { self.new.room ≡ self.old.room }
        ensures calls { self.new.calls ≡ next_call self.old.calls }
        ensures fails { self.new.fails ≡ self.old.fails }
        ensures failed { FailsWhere (left_at self.old.fails (next_call self.old.calls)) result }
    {
        self.calls = self.calls.saturating_add(1);
        if left_at(self.fails.items(), self.calls).is_some() {
            self.faults = self.faults.saturating_add(1);
            return Err(KeeperFailed::Failed);
        }
        if self.empty {
            return Ok(None);
        }
        self.keeper.load()
    }

    #[tactic(auto, using(crate::proofs::FailingLemmas::stores_left))]
    fn store(&mut self, bytes: &[u8]) -> Result<(), KeeperFailed>
        ensures kept { Stores self.old.kept self.new.kept bytes.now result }
        ensures cause { KeeperCause self.old.faults self.new.faults result }
        ensures room { ¬ (result ≡ Err Wanting) }
        ensures room_stays { self.new.room ≡ self.old.room }
        ensures calls { self.new.calls ≡ next_call self.old.calls }
        ensures fails { self.new.fails ≡ self.old.fails }
        ensures failed { FailsWhere (left_at self.old.fails (next_call self.old.calls)) result }
        ensures stored { self.new.kept ≡ stored (left_at self.old.fails (next_call self.old.calls))
            self.old.kept self.old.room bytes.now }
    {
        self.calls = self.calls.saturating_add(1);
        let left = left_at(self.fails.items(), self.calls);
        self.change(left, bytes);
        match left {
            None => Ok(()),
            Some(_) => {
                self.faults = self.faults.saturating_add(1);
                Err(KeeperFailed::Failed)
            }
        }
    }
}
