//! A keeper in memory that never fails.
ghost use Rattle.std.specs.Prelude.{◌≡◌, ◌≤◌, ◌↔◌, IfOk, IfSome, IsSome, is_some, Some, None, Err, length, if◌then◌else◌, vec_capacity};
ghost use Rattle.std.specs.Option.{option_map};
ghost use Rattle.build_base.specs.Keeping.{KeeperState, KeeperCause, Stores};

use crate::outside::{Keeper, KeeperFailed};
use crate::text::{Text, WantOfMemory};
use std::alloc::Global;
use std::marker::Model;

/// Keeps one text of up to a number of bytes, for which its memory is taken at the start. It tells
/// what it keeps exactly until it is given a longer one.
#[derive(Drop)]
pub struct SureKeeper {
    alloc: Global,
    there: bool,
    tells: bool,
    room: u64,
    store: Vec<u8>,
}

impl Model for SureKeeper {
    ghost use Rattle.std.specs.Prelude.{◌≤◌, Option, Some, None, if◌then◌else◌, vec_capacity};
    ghost use Rattle.build_base.specs.Keeping.{KeeperState};

    ghost Value = { KeeperState };

    ghost view = { λ k. record {
      kept = if k.tells then Some (if k.there then Some k.store.items else None) else None;
      shown = if k.there then Some k.store.items else None;
      room = k.room;
    } };

    ghost invariant = { λ k. k.room ≤ vec_capacity k.store };
}

impl SureKeeper {
    /// A keeper of this text, with room for `room` bytes.
    pub fn new(alloc: Global, kept: Option<Text>, room: u64) -> Result<SureKeeper, WantOfMemory>
        ensures kept { IfOk result (λ k. k.kept ≡ Some kept) }
        ensures shown { IfOk result (λ k. k.shown ≡ kept) }
        ensures room { IfOk result (λ k. k.room ≡ room) }
    {
        let mut store = Vec::with_capacity(alloc, room as usize)?;
        let there = kept.is_some();
        if let Some(text) = &kept {
            store.extend_from_slice(text.bytes())?;
        }
        Ok(SureKeeper {
            alloc,
            there,
            tells: true,
            room,
            store,
        })
    }

    /// What it keeps. Once it tells nothing any more, what it kept before.
    pub fn kept(&self) -> Option<&[u8]>
        ensures told { IfSome self.now.kept
            (λ there. option_map (λ bytes. bytes.now) result ≡ there) }
        ensures shown { option_map (λ bytes. bytes.now) result ≡ self.now.shown }
    {
        if self.there {
            Some(self.store.as_slice())
        } else {
            None
        }
    }
}

// Puts other bytes in the place of those that are there, where there is room.
fn fill(store: &mut Vec<u8>, bytes: &[u8])
    requires { length bytes.now ≤ vec_capacity store.old }
    ensures items { store.new.items ≡ bytes.now }
    ensures room { vec_capacity store.old ≤ vec_capacity store.new }
{
    store.clear();
    let _ = store.extend_from_slice(bytes);
}

impl Keeper for SureKeeper {
    ghost kept = { λ k. k.kept };

    ghost faults = { λ k. 0 };

    fn load(&mut self) -> Result<Option<Text>, KeeperFailed>
        ensures kept { self.new.kept ≡ self.old.kept }
        ensures loads { IfOk result (λ text. IfSome self.old.kept (λ there. text ≡ there)) }
        ensures cause { KeeperCause 0 0 result }
        ensures room { self.new.room ≡ self.old.room }
        ensures shown { self.new.shown ≡ self.old.shown }
        ensures loads_shown { IfOk result (λ text. text ≡ self.old.shown) }
    {
        if !self.there {
            return Ok(None);
        }
        match Text::of(self.alloc, self.store.as_slice()) {
            Ok(text) => Ok(Some(text)),
            Err(_) => Err(KeeperFailed::WantOfMemory),
        }
    }

    fn store(&mut self, bytes: &[u8]) -> Result<(), KeeperFailed>
        ensures kept { Stores self.old.kept self.new.kept bytes.now result }
        ensures cause { KeeperCause 0 0 result }
        ensures room { ¬ (result ≡ Err KeeperFailed.WantOfMemory) }
        ensures told { IsSome self.new.kept ↔
            (IsSome self.old.kept × (length bytes.now ≤ self.old.room)) }
        ensures room_stays { self.new.room ≡ self.old.room }
        ensures shown { self.new.shown
            ≡ (if is_some self.new.kept then Some bytes.now else self.old.shown) }
    {
        if self.tells && bytes.len() as u64 <= self.room {
            fill(&mut self.store, bytes);
            self.there = true;
        } else {
            self.tells = false;
        }
        Ok(())
    }
}
