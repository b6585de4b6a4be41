//! Bytes in place, or on the heap, of one owner or shared by copies.
ghost use Rattle.std.specs.Prelude.{◌≡◌, ◌≤◌, IfOk, take, drop, length};
ghost use Rattle.std.specs.Arc.{arc_value};
ghost use Rattle.build_base.specs.Stores.{store_bytes};

use crate::bytes::part_of;
use std::alloc::{AllocError, Global};
use std::sync::Arc;

// How many bytes stand in place at most: with their count they take no more room than a vector.
const SMALL: usize = 23;

/// The bytes of a text. Small ones are the first of so many in place. A part is so many of the
/// shared bytes behind a start, or as many as there are.
#[derive(Debug)]
pub(crate) enum Store {
    Own(Vec<u8>),
    Small([u8; SMALL], u8),
    Shared(Arc<Vec<u8>, Global>),
    Part(Arc<Vec<u8>, Global>, usize, usize),
}

// Written out, so that a caller that lets a text go has one call here and not a case for each
// variant.
impl Drop for Store {
    fn drop(self) {
        match self {
            Store::Own(_bytes) => {}
            Store::Small(_bytes, _count) => {}
            Store::Shared(_bytes) => {}
            Store::Part(_bytes, _start, _count) => {}
        }
    }
}

// The array whose first bytes are these.
fn in_place(bytes: &[u8]) -> [u8; SMALL]
    requires { length bytes.now ≤ 23 }
    ensures { take (length bytes.now) result ≡ bytes.now }
{
    let mut place = [0; SMALL];
    put_first(&mut place, bytes);
    place
}

// Puts these bytes in the place of the first ones.
fn put_first(place: &mut [u8], bytes: &[u8])
    requires { length bytes.now ≤ length place.old }
    ensures { take (length bytes.now) place.new ≡ bytes.now }
{
    place[..bytes.len()].copy_from_slice(bytes);
}

impl Store {
    /// These bytes, copied; in place where they are few.
    pub(crate) fn of(alloc: Global, bytes: &[u8]) -> Result<Store, AllocError>
        ensures { IfOk result (λ store. store_bytes store ≡ bytes.now) }
    {
        if bytes.len() <= SMALL {
            return Ok(Store::Small(in_place(bytes), bytes.len() as u8));
        }
        Ok(Store::Own(Vec::from_slice(alloc, bytes)?))
    }

    /// These bytes, which copies share.
    pub(crate) fn from_vec_shared(alloc: Global, bytes: Vec<u8>) -> Result<Store, AllocError>
        ensures { IfOk result (λ store. store_bytes store ≡ bytes.items) }
    {
        match Arc::new(alloc, bytes) {
            Ok(bytes) => Ok(Store::Shared(bytes)),
            Err(_failed) => Err(AllocError),
        }
    }

    #[inline(always)]
    pub(crate) fn bytes(&self) -> &[u8]
        ensures { result.now ≡ store_bytes self.now }
    {
        match self {
            Store::Own(bytes) => bytes.as_slice(),
            Store::Small(bytes, count) => part_of(bytes.as_slice(), 0, *count as usize),
            Store::Shared(bytes) => bytes.as_slice(),
            Store::Part(bytes, start, count) => part_of(bytes.as_slice(), *start, *count),
        }
    }

    // A part of a part of shared bytes.
    #[tactic(auto, using(crate::proofs::PartLemmas::part_of_part))]
    fn part_of_part(
        alloc: Global,
        bytes: &Arc<Vec<u8>, Global>,
        within: (usize, usize),
        start: usize,
        count: usize,
    ) -> Result<Store, AllocError>
        ensures { IfOk result (λ store. store_bytes store
            ≡ take count (drop start (take within.1 (drop within.0 (arc_value bytes.now).items)))) }
    {
        match within.0.checked_add(start) {
            Some(place) => {
                let most = within.1.saturating_sub(start);
                Ok(Store::Part(Arc::try_clone(bytes)?, place, count.min(most)))
            }
            None => {
                let own = part_of(bytes.as_slice(), within.0, within.1);
                Store::of(alloc, part_of(own, start, count))
            }
        }
    }

    // So many bytes behind a start, or as many as there are; of shared ones no byte is copied.
    fn lent_part(&self, alloc: Global, start: usize, count: usize) -> Result<Store, AllocError>
        ensures { IfOk result (λ store. store_bytes store
            ≡ take count (drop start (store_bytes self.now))) }
    {
        match self {
            Store::Own(_) | Store::Small(_, _) => {
                Store::of(alloc, part_of(self.bytes(), start, count))
            }
            Store::Shared(bytes) => Ok(Store::Part(Arc::try_clone(bytes)?, start, count)),
            Store::Part(bytes, from, most) => {
                Store::part_of_part(alloc, bytes, (*from, *most), start, count)
            }
        }
    }

    /// So many bytes behind a start, or as many as there are; of shared ones none is copied, unless
    /// they are few.
    pub(crate) fn part(
        &self,
        alloc: Global,
        start: usize,
        count: usize,
    ) -> Result<Store, AllocError>
        ensures { IfOk result (λ store. store_bytes store
            ≡ take count (drop start (store_bytes self.now))) }
    {
        if count <= SMALL {
            return Store::of(alloc, part_of(self.bytes(), start, count));
        }
        self.lent_part(alloc, start, count)
    }

    /// The same bytes once more; of shared ones no byte is copied.
    pub(crate) fn copy(&self) -> Result<Store, AllocError>
        ensures { IfOk result (λ store. store_bytes store ≡ store_bytes self.now) }
    {
        match self {
            Store::Own(bytes) => Ok(Store::Own(bytes.clone()?)),
            Store::Small(bytes, count) => Ok(Store::Small(*bytes, *count)),
            Store::Shared(bytes) => Ok(Store::Shared(Arc::try_clone(bytes)?)),
            Store::Part(bytes, start, count) => {
                Ok(Store::Part(Arc::try_clone(bytes)?, *start, *count))
            }
        }
    }
}
