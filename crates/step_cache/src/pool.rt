//! A pool of texts, each once, as it is written.
ghost use Rattle.std.specs.Prelude.{◌≡◌, ◌++◌, ◌≤◌, ◌+◌, [], ◌∷◌, true, false, List, ℕ, length, take, drop, IfOk, OnOk, MatchOption};
ghost use Rattle.std.specs.Int.{bytes_low_first};
ghost use Rattle.packed_values.specs.Plain.{text_encoding};
ghost use Rattle.packed_values.specs.Parts.{rows_encoding};
ghost use Rattle.step_cache.specs.Places.{digest, texts_at, IsPlaced, IsPool, IsTextAt};
ghost use Rattle.step_cache.specs.Pools.{has_text, with_text, number_in};

use crate::places::{Span, digest, find, note};
use build_base::{Rows, WantOfMemory};
use cache_heads::{HEAD, before, behind};
use indexmap::IndexMap;
use packed_values::Encode;
use std::alloc::Global;
use std::marker::Model;

// How many bytes stand before the texts: a head, and their count.
const ROOM: usize = HEAD + 8;

/// Texts, each once, in the order in which they were put. They stand behind one another as they do
/// in the text of a cache, and are looked up there.
#[derive(Drop)]
pub(crate) struct Pool {
    bytes: Vec<u8>,
    spans: Vec<Span>,
    table: IndexMap<u64, Rows<usize>>,
}

impl Model for Pool {
    ghost use Rattle.std.specs.Prelude.{List, ℕ};
    ghost use Rattle.step_cache.specs.Places.{texts_at, IsPool};

    ghost Value = { List (List ℕ) };

    ghost view = { λ p. texts_at p.bytes.items p.spans.items };

    ghost invariant = { λ p. IsPool p.bytes.items p.spans.items p.table };
}

// Writes a number over the eight bytes behind a start.
fn set_number(bytes: &mut [u8], start: usize, number: u64)
    requires { start + 8 ≤ length bytes.old }
    ensures { bytes.new ≡ take start bytes.old ++ bytes_low_first 0 8 number
        ++ drop (start + 8) bytes.old }
{
    bytes[start..start + 8].copy_from_slice(number.to_le_bytes().as_slice());
}

fn put_number(bytes: &mut Vec<u8>, start: usize, number: u64)
    requires { start + 8 ≤ length bytes.old.items }
    ensures { bytes.new.items ≡ take start bytes.old.items ++ bytes_low_first 0 8 number
        ++ drop (start + 8) bytes.old.items }
{
    set_number(bytes.as_mut_slice(), start, number);
}

// The number of the text with this digest that stands behind a start and room for its length, where
// it stands before too.
#[tactic(auto, using(crate::proofs::PoolTextLemmas::told_by))]
fn find_last(
    bytes: &[u8],
    start: usize,
    spans: &[Span],
    table: &IndexMap<u64, Rows<usize>>,
    hash: u64,
) -> Option<usize>
    requires room { start + 8 ≤ length bytes.now }
    requires digest { hash ≡ digest (drop (start + 8) bytes.now) }
    requires placed { IsPlaced (texts_at (take start bytes.now) spans.now) table.now }
    ensures { MatchOption result
        (has_text (texts_at (take start bytes.now) spans.now) (drop (start + 8) bytes.now) ≡ false)
        (IsTextAt (texts_at (take start bytes.now) spans.now) (drop (start + 8) bytes.now)) }
{
    find(
        before(bytes, start),
        spans,
        table,
        behind(bytes, start + 8),
        hash,
    )
}

// Gives the pool room for a head and a count, where it has none yet.
fn make_room(
    bytes: &mut Vec<u8>,
    spans: &[Span],
    table: &IndexMap<u64, Rows<usize>>,
) -> Result<(), WantOfMemory>
    requires { IsPool bytes.old.items spans.now table.now }
    ensures pool { OnOk result (IsPool bytes.new.items spans.now table.now) }
    ensures texts { OnOk result (texts_at bytes.new.items spans.now
        ≡ texts_at bytes.old.items spans.now) }
    ensures room { OnOk result (28 ≤ length bytes.new.items) }
{
    if bytes.len() < ROOM {
        bytes.clear();
        bytes.extend_from_slice([0; ROOM].as_slice())?;
    }
    Ok(())
}

// Adds the text with this digest that stands behind a start and room for its length, and isn't
// there yet.
#[tactic(auto, using(crate::proofs::PoolTextLemmas::length_texts))]
fn add(
    alloc: Global,
    start: usize,
    bytes: &mut Vec<u8>,
    spans: &mut Vec<Span>,
    table: &mut IndexMap<u64, Rows<usize>>,
    hash: u64,
) -> Result<usize, WantOfMemory>
    requires front { 28 ≤ start }
    requires room { start + 8 ≤ length bytes.old.items }
    requires digest { hash ≡ digest (drop (start + 8) bytes.old.items) }
    requires pool { IsPool (take start bytes.old.items) spans.old.items table.old }
    requires none { has_text (texts_at (take start bytes.old.items) spans.old.items)
        (drop (start + 8) bytes.old.items) ≡ false }
    ensures pool { OnOk result (IsPool bytes.new.items spans.new.items table.new) }
    ensures texts { OnOk result (texts_at bytes.new.items spans.new.items
        ≡ texts_at (take start bytes.old.items) spans.old.items
        ++ drop (start + 8) bytes.old.items ∷ []) }
    ensures number { IfOk result (λ n. n ≡ length spans.old.items) }
{
    let number = spans.len();
    let span = Span {
        start: start + 8,
        count: bytes.len() - (start + 8),
    };
    note(alloc, table, hash, number)?;
    put_number(bytes, start, span.count as u64);
    if spans.push(span).is_err() {
        return Err(WantOfMemory);
    }
    Ok(number)
}

// Puts the text that stands behind a start and room for its length, unless it is there.
fn close(
    alloc: Global,
    start: usize,
    bytes: &mut Vec<u8>,
    spans: &mut Vec<Span>,
    table: &mut IndexMap<u64, Rows<usize>>,
) -> Result<usize, WantOfMemory>
    requires front { 28 ≤ start }
    requires room { start + 8 ≤ length bytes.old.items }
    requires pool { IsPool (take start bytes.old.items) spans.old.items table.old }
    ensures pool { OnOk result (IsPool bytes.new.items spans.new.items table.new) }
    ensures texts { OnOk result (texts_at bytes.new.items spans.new.items
        ≡ with_text (texts_at (take start bytes.old.items) spans.old.items)
        (drop (start + 8) bytes.old.items)) }
    ensures number { IfOk result (λ n. n ≡ number_in (texts_at bytes.new.items spans.new.items)
        (drop (start + 8) bytes.old.items)) }
{
    let hash = digest(behind(bytes.as_slice(), start + 8));
    match find_last(bytes.as_slice(), start, spans.as_slice(), table, hash) {
        Some(number) => {
            bytes.truncate(start);
            Ok(number)
        }
        None => {
            let number = add(alloc, start, bytes, spans, table, hash)?;
            Ok(number)
        }
    }
}

// Puts the encoding of a value, unless it is there.
fn put_value<P: Encode>(
    alloc: Global,
    value: &P::Value,
    bytes: &mut Vec<u8>,
    spans: &mut Vec<Span>,
    table: &mut IndexMap<u64, Rows<usize>>,
) -> Result<usize, WantOfMemory>
    requires pool { IsPool bytes.old.items spans.old.items table.old }
    ensures pool { OnOk result (IsPool bytes.new.items spans.new.items table.new) }
    ensures texts { OnOk result (texts_at bytes.new.items spans.new.items
        ≡ with_text (texts_at bytes.old.items spans.old.items) (P.encoding.encode value.now)) }
    ensures number { IfOk result (λ n. n ≡ number_in (texts_at bytes.new.items spans.new.items)
        (P.encoding.encode value.now)) }
    ensures value { OnOk result (P.encoding.is_value value.now ≡ true) }
{
    make_room(bytes, spans.as_slice(), table)?;
    let start = bytes.len();
    u64::encode(&0, bytes)?;
    P::encode(value, bytes)?;
    let number = close(alloc, start, bytes, spans, table)?;
    Ok(number)
}

impl Pool {
    /// No texts.
    #[tactic(auto, using(crate::proofs::PoolTextLemmas::no_texts))]
    pub(crate) fn new(alloc: Global) -> Pool
        ensures { result ≡ [] }
    {
        Pool {
            bytes: Vec::new(alloc),
            spans: Vec::new(alloc),
            table: IndexMap::new(alloc),
        }
    }

    /// The number of the packed form of a value, which is put where it isn't there. Where memory is
    /// wanting, the pool is left empty.
    #[tactic(auto, using(crate::proofs::PoolTextLemmas::no_texts))]
    pub(crate) fn put<P: Encode>(
        &mut self,
        alloc: Global,
        value: &P::Value,
    ) -> Result<u64, WantOfMemory>
        ensures pool { OnOk result (self.new ≡ with_text self.old (P.encoding.encode value.now)) }
        ensures number { IfOk result (λ n. n ≡ number_in self.new (P.encoding.encode value.now)) }
        ensures value { OnOk result (P.encoding.is_value value.now ≡ true) }
    {
        match put_value::<P>(
            alloc,
            value,
            &mut self.bytes,
            &mut self.spans,
            &mut self.table,
        ) {
            Ok(number) => Ok(number as u64),
            Err(_) => {
                self.bytes.clear();
                self.spans.clear();
                self.table.clear();
                Err(WantOfMemory)
            }
        }
    }

    /// The encoding of the texts, behind room for a head.
    pub(crate) fn into_bytes(self) -> Result<Vec<u8>, WantOfMemory>
        ensures room { IfOk result (λ bytes. 28 ≤ length bytes.items) }
        ensures texts { IfOk result (λ bytes. drop 20 bytes.items
            ≡ (rows_encoding text_encoding).encode self) }
        ensures value { OnOk result ((rows_encoding text_encoding).is_value self ≡ true) }
    {
        let Pool {
            mut bytes,
            spans,
            table,
        } = self;
        make_room(&mut bytes, spans.as_slice(), &table)?;
        put_number(&mut bytes, HEAD, spans.len() as u64);
        Ok(bytes)
    }
}
