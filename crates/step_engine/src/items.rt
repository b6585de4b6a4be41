//! What is under way.
ghost use Rattle.std.specs.Prelude.{◌≡◌, ◌<◌, ◌≤◌, length, get_or, IfSome, IfNone};

use crate::rules::Turn;
use crate::talk::{Ask, Batch, Entry, Talk};
use build_base::book::Permit;
use build_base::rows::Rows;

/// A step that is to make its next turn.
#[derive(Drop)]
pub struct Run<K, O> {
    pub key: K,
    pub talk: Talk<K, O>,
    pub permit: Permit,
}

/// A step that made a turn.
#[derive(Drop)]
pub struct Turned<K, O> {
    pub key: K,
    pub talk: Talk<K, O>,
    pub turn: Turn<K, O>,
}

/// A step that waits for the answers to its asks.
#[derive(Drop)]
pub struct Asked<K, O> {
    pub key: K,
    pub talk: Talk<K, O>,
    pub permit: Permit,
    pub asks: Rows<Ask<K>>,
}

/// An old entry of which the batches before this one are right.
#[derive(Drop)]
pub(crate) struct Check<K, O> {
    pub entry: Entry<K, O>,
    pub batch: usize,
}

/// A key under way.
#[derive(Drop)]
pub enum Item<K, O> {
    Run(Run<K, O>),
    Asked(Asked<K, O>),
    Check(Check<K, O>),
}

/// A key under way with parts that it asks for, which may not be done; the last one is looked at
/// first.
#[derive(Drop)]
pub struct Waiting<K, O> {
    pub item: Item<K, O>,
    pub parts: Vec<K>,
}

/// The keys that wait for one part.
#[derive(Drop)]
pub(crate) struct Queue<K, O> {
    pub list: Vec<Waiting<K, O>>,
}

/// What came of a check: the entry is valid, it isn't, or it is to be checked on.
#[derive(Drop)]
pub(crate) enum Checked<K, O> {
    Right(Entry<K, O>),
    Wrong(K),
    Next(Check<K, O>),
}

/// A batch of an entry.
pub fn batch_at<K, O>(entry: &Entry<K, O>, number: usize) -> Option<&Batch<K, O>>
    ensures some { IfSome result (λ b. (number < length entry.now.talk.batches)
        × (b.now ≡ get_or entry.now.talk.batches number b.now)) }
    ensures none { IfNone result (length entry.now.talk.batches ≤ number) }
{
    let talk = entry.talk.value();
    match talk.batches.items().get(number) {
        Some(batch) => Some(batch),
        None => None,
    }
}
