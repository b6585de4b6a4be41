//! A sink in memory, whose room is made before, and which fails at the calls of a list.
ghost use Rattle.std.specs.Prelude.{◌≡◌, ◌+◌, ◌≤◌, ◌<◌, ◌⊎◌, [], ◌∷◌, ◌++◌, length, Some, IfOk, vec_capacity, vec_len};
ghost use Rattle.std.specs.Bool.{OnTrue, OnFalse};
ghost use Rattle.build_base.specs.Outside.{Emission, Grew, Emits, Cause, next_call};
ghost use Rattle.std.specs.Prelude.{◌↔◌, IsSome, List, slice_get};
ghost use Rattle.std.specs.Option.{option_map};
ghost use Rattle.build_base.specs.MemorySink.{all_seen, seen, seen_emission, target_of, IsKept};
ghost use Rattle.build_base.specs.SinkState.{path_of, kept_at, written_part, AllTakeRoom, HasRoomForAll, SinkState, TakesRoom, Writes};

use crate::outside::{Sink, SinkFailed, Target};
use crate::rows::Rows;
use crate::text::WantOfMemory;
use std::alloc::Global;
use std::marker::Model;

/// Where an emission went.
#[derive(Clone, Copy, Debug, PartialEq, Eq)]
pub enum Kind {
    Start,
    More,
    Out,
    Err,
}

// Where an emission stands among the bytes kept.
#[derive(Clone, Copy)]
pub struct Note {
    pub kind: Kind,
    pub start: usize,
    pub path: usize,
    pub bytes: usize,
}

/// How many emissions are kept, and how many bytes of theirs, those of their paths among them.
#[derive(Clone, Copy, Debug)]
pub struct Room {
    pub calls: u64,
    pub bytes: u64,
}

/// A call that fails, counted from 1, and how many of its bytes are written all the same.
#[derive(Clone, Copy, Debug)]
pub struct SinkFail {
    pub call: u64,
    pub kept: u64,
}

/// Keeps what is emitted, and tells it exactly as long as there is room.
#[derive(Drop)]
pub struct MemorySink {
    notes: Vec<Note>,
    store: Vec<u8>,
    left: Room,
    tells: bool,
    fails: Rows<SinkFail>,
    calls: u64,
    faults: u64,
}

impl Model for MemorySink {
    ghost use Rattle.std.specs.Prelude.{◌+◌, ◌≤◌, Some, None, if◌then◌else◌, vec_capacity, vec_len};
    ghost use Rattle.build_base.specs.SinkState.{SinkState};

    ghost Value = { SinkState };

    ghost use Rattle.build_base.specs.MemorySink.{all_seen, IsKept};

    ghost view = { λ s. record {
      kept = all_seen s.store.items s.notes.items;
      written = if s.tells then Some (all_seen s.store.items s.notes.items) else None;
      faults = s.faults;
      calls_left = s.left.calls;
      bytes_left = s.left.bytes;
      fails = s.fails;
      calls = s.calls;
    } };

    ghost invariant = { λ s. IsKept s.store.items s.notes.items
        × (vec_len s.notes + s.left.calls ≤ vec_capacity s.notes)
        × (vec_len s.store + s.left.bytes ≤ vec_capacity s.store) };
}

impl MemorySink {
    /// A sink with this room, whose memory is taken here.
    pub fn new(alloc: Global, room: Room, fails: Rows<SinkFail>) -> Result<MemorySink, WantOfMemory>
        ensures { IfOk result
            (λ s. s
            ≡ record {
              kept = [];
              written = Some [];
              faults = 0;
              calls_left = room.calls;
              bytes_left = room.bytes;
              fails = fails;
              calls = 0;
            }) }
    {
        let notes = Vec::with_capacity(alloc, room.calls as usize)?;
        let store = Vec::with_capacity(alloc, room.bytes as usize)?;
        Ok(MemorySink {
            notes,
            store,
            left: room,
            tells: true,
            fails,
            calls: 0,
            faults: 0,
        })
    }
}

fn kind_of(target: &Target) -> Kind
    ensures { target_of result (path_of target.now) ≡ target.now }
{
    match target {
        Target::Start(_) => Kind::Start,
        Target::More(_) => Kind::More,
        Target::Out => Kind::Out,
        Target::Err => Kind::Err,
    }
}

fn path_of(target: &Target) -> &[u8]
    ensures { result.now ≡ path_of target.now }
{
    match target {
        Target::Start(path) => path.bytes(),
        Target::More(path) => path.bytes(),
        Target::Out => b"".as_slice(),
        Target::Err => b"".as_slice(),
    }
}

// Takes one call and so many bytes of what is left, where there are as many.
fn take_room(left: &mut Room, path: usize, bytes: usize) -> bool
    ensures taken { OnTrue result ((left.old.calls ≡ left.new.calls + 1)
        × (left.old.bytes ≡ left.new.bytes + (path + bytes))) }
    ensures refused { OnFalse result ((left.new ≡ left.old)
        × ((left.old.calls ≡ 0) ⊎ (left.old.bytes < path + bytes))) }
{
    let path = path as u64;
    let bytes = bytes as u64;
    if left.calls == 0 || path > left.bytes || bytes > left.bytes - path {
        return false;
    }
    left.calls -= 1;
    left.bytes -= path + bytes;
    true
}

// Adds both, for which there is room.
fn put(store: &mut Vec<u8>, path: &[u8], bytes: &[u8])
    requires { vec_len store.old + length path.now + length bytes.now ≤ vec_capacity store.old }
    ensures items { store.new.items ≡ (store.old.items ++ path.now) ++ bytes.now }
    ensures len { vec_len store.new ≡ vec_len store.old + (length path.now + length bytes.now) }
    ensures room { vec_capacity store.old ≤ vec_capacity store.new }
{
    let _ = store.extend_from_slice(path);
    let _ = store.extend_from_slice(bytes);
}

// Keeps one emission, for which there is room.
#[tactic(auto, using(crate::proofs::MemorySinkLemmas::kept_one, crate::proofs::MemorySinkLemmas::kept_one_still))]
fn keep(notes: &mut Vec<Note>, store: &mut Vec<u8>, kind: Kind, path: &[u8], bytes: &[u8])
    requires kept { IsKept store.old.items notes.old.items }
    requires call { vec_len notes.old < vec_capacity notes.old }
    requires room { vec_len store.old + length path.now + length bytes.now
        ≤ vec_capacity store.old }
    ensures kept { all_seen store.new.items notes.new.items
        ≡ all_seen store.old.items notes.old.items
        ++ (target_of kind path.now, bytes.now) ∷ [] }
    ensures still { IsKept store.new.items notes.new.items }
    ensures calls { vec_len notes.new ≡ vec_len notes.old + 1 }
    ensures calls_room { vec_capacity notes.old ≤ vec_capacity notes.new }
    ensures bytes { vec_len store.new ≡ vec_len store.old + (length path.now + length bytes.now) }
    ensures bytes_room { vec_capacity store.old ≤ vec_capacity store.new }
{
    let start = store.len();
    put(store, path, bytes);
    notes.push_reserved(Note {
        kind,
        start,
        path: path.len(),
        bytes: bytes.len(),
    });
}

// How many bytes a call that fails keeps.
fn kept_at(fails: &[SinkFail], call: u64) -> Option<u64>
    ensures { result ≡ kept_at fails.now call }
{
    for fail in fails {
        if fail.call == call {
            return Some(fail.kept);
        }
    }
    None
}

impl MemorySink {
    fn note(&mut self, target: &Target, bytes: &[u8])
        ensures written { Grew self.old.written self.new.written ((target.now, bytes.now) ∷ []) }
        ensures faults { self.new.faults ≡ self.old.faults }
        ensures fails { self.new.fails ≡ self.old.fails }
        ensures calls { self.new.calls ≡ self.old.calls }
        ensures told { TakesRoom self.old self.new target.now bytes.now }
    {
        if !self.tells {
            return;
        }
        let path = path_of(target);
        self.tells = take_room(&mut self.left, path.len(), bytes.len());
        if self.tells {
            let kind = kind_of(target);
            keep(&mut self.notes, &mut self.store, kind, path, bytes);
        }
    }
}

/// One emission, as it was kept. The path is empty for the streams.
#[derive(Clone, Copy, Debug)]
pub struct Seen<'a> {
    pub kind: Kind,
    pub path: &'a [u8],
    pub bytes: &'a [u8],
}

// The emission of a note.
fn show<'a>(store: &'a [u8], note: &Note) -> Seen<'a>
    requires { note.now.start + note.now.path + note.now.bytes ≤ length store.now }
    ensures { seen_emission result ≡ seen store.now note.now }
{
    let middle = note.start + note.path;
    Seen {
        kind: note.kind,
        path: &store[note.start..middle],
        bytes: &store[middle..middle + note.bytes],
    }
}

#[tactic(auto, using(crate::proofs::MemorySinkLemmas::all_seen_at, crate::proofs::MemorySinkLemmas::all_seen_past, crate::proofs::MemorySinkLemmas::kept_at))]
fn emission_at<'a>(store: &'a [u8], notes: &[Note], k: u64) -> Option<Seen<'a>>
    requires { IsKept store.now notes.now }
    ensures { option_map seen_emission result ≡ slice_get (all_seen store.now notes.now) k }
{
    let place = k as usize;
    if place < notes.len() {
        Some(show(store, &notes[place]))
    } else {
        None
    }
}

#[tactic(auto, using(crate::proofs::MemorySinkLemmas::all_seen_length))]
fn count(_store: &[u8], notes: &[Note]) -> u64
    ensures { result ≡ length (all_seen _store.now notes.now) }
{
    notes.len() as u64
}

impl MemorySink {
    /// How many emissions are kept.
    pub fn emissions(&self) -> u64
        ensures { result ≡ length self.now.kept }
    {
        count(self.store.as_slice(), self.notes.as_slice())
    }

    /// The k-th emission that is kept, from 0.
    pub fn emission(&self, k: u64) -> Option<Seen<'_>>
        ensures { option_map seen_emission result ≡ slice_get self.now.kept k }
    {
        emission_at(self.store.as_slice(), self.notes.as_slice(), k)
    }
}

impl Sink for MemorySink {
    ghost written = { λ s. s.written };

    ghost faults = { λ s. s.faults };

    fn emit(&mut self, target: &Target, bytes: &[u8]) -> Result<(), SinkFailed>
        ensures written { Emits self.old.written self.new.written target.now bytes.now result }
        ensures cause { Cause self.old.faults self.new.faults result }
        ensures told { TakesRoom self.old self.new target.now
            (written_part (kept_at self.old.fails (next_call self.old.calls)) bytes.now) }
        ensures calls { self.new.calls ≡ next_call self.old.calls }
        ensures fails { self.new.fails ≡ self.old.fails }
        ensures writes { Writes (kept_at self.old.fails (next_call self.old.calls)) self.old.written
            self.new.written target.now bytes.now result }
    {
        self.calls = self.calls.saturating_add(1);
        match kept_at(self.fails.items(), self.calls) {
            None => {
                self.note(target, bytes);
                Ok(())
            }
            Some(kept) => {
                let end = (kept as usize).min(bytes.len());
                self.faults = self.faults.saturating_add(1);
                self.note(target, &bytes[..end]);
                Err(SinkFailed)
            }
        }
    }
}

/// What is emitted is told exactly as long as the emissions, failed ones among them, number at most
/// the calls of the room, and their paths and bytes together at most its bytes.
#[tactic(auto, using(crate::proofs::MemorySinkLemmas::told_while_room))]
pub(crate) fn sinks_tell_while_there_is_room()
    ensures { (old new : SinkState) (emissions : List Emission) → AllTakeRoom old emissions new
        → IsSome new.written ↔ (IsSome old.written × HasRoomForAll old emissions) }
{}
