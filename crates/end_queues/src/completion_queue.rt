//! A completion queue, with places reserved for the completions of posted work (IBA chapters 10 and 11). Each posting
//! reserves a place, whichever queue pairs share the queue, so the queue never overflows; that a posting is refused
//! where no place is left is this project's choice.

ghost use Rattle.std.specs.Prelude.{◌≡◌, ℕ, ◌+◌, ◌<◌, ◌≤◌, ◌↔◌, ◌++◌, [], length, drop, take, min, slice_get, IfOk, IsErr, IsTrue, OnErr, OnOk};
ghost use Rattle.std.specs.Option.{option_copied};
ghost use Rattle.end_queues.specs.Completions.{IsWithin, completed, giving_back, polled, reserving, unreserved, used_places};

use rdma_types::Completion;
use std::alloc::{AllocError, Global};
use std::collections::VecDeque;
use std::marker::Model;

/// Entries and reserved places reach the capacity.
#[derive(Clone, Copy, Debug, PartialEq, Eq)]
pub struct CqFull;

/// The completions of one or more queue pairs that are not polled yet, oldest first, and the places reserved for those
/// to come. Entries and reserved places never pass the capacity. Only making a queue takes memory, and each call takes
/// constant time for each entry that it moves.
#[derive(Drop)]
pub struct Cq {
    capacity: u32,
    reserved: u32,
    entries: VecDeque<Completion>,
}

impl Model for Cq {
    ghost use Rattle.std.specs.Prelude.{◌+◌, ◌≤◌};
    ghost use Rattle.std.specs.VecDeque.{deque_len, deque_capacity};
    ghost use Rattle.end_queues.specs.Completions.{Queue};

    ghost Value = { Queue };

    ghost view = { λ q. record { capacity = q.capacity; reserved = q.reserved; entries = q.entries.items } };

    ghost invariant = { λ q. (deque_len q.entries + q.reserved ≤ q.capacity) × (q.capacity ≤ deque_capacity q.entries) };
}

impl Cq {
    /// An empty queue with room for `capacity` entries. Errors: `AllocError` when out of memory.
    pub fn make(alloc: Global, capacity: u32) -> Result<Cq, AllocError>
        ensures { IfOk result (λ q. q ≡ unreserved capacity []) }
    {
        let entries = VecDeque::with_capacity(alloc, capacity as usize)?;
        Ok(Cq {
            capacity,
            reserved: 0,
            entries,
        })
    }

    /// A queue with room for `capacity` entries that holds these, oldest first, as an image says them. There may be no
    /// more of them than the capacity. Errors: `AllocError` when out of memory.
    pub fn from_entries(
        alloc: Global,
        capacity: u32,
        entries: &[Completion],
    ) -> Result<Cq, AllocError>
        requires { length entries.now ≤ capacity }
        ensures { IfOk result (λ q. q ≡ unreserved capacity entries.now) }
    {
        let mut held = VecDeque::with_capacity(alloc, capacity as usize)?;
        for entry in entries {
            held.push_back(*entry).unwrap();
        }
        Ok(Cq {
            capacity,
            reserved: 0,
            entries: held,
        })
    }

    /// An equal queue. Errors: `AllocError` when out of memory.
    pub fn copy(&self, alloc: Global) -> Result<Cq, AllocError>
        ensures { IfOk result (λ q. q ≡ self.now) }
    {
        let mut entries = VecDeque::with_capacity(alloc, self.capacity as usize)?;
        for i in 0..self.entries.len() {
            entries.push_back(self.entries[i]).unwrap();
        }
        Ok(Cq {
            capacity: self.capacity,
            reserved: self.reserved,
            entries,
        })
    }

    /// Reserves a place for a completion to come. Errors: `CqFull` exactly where entries and reserved places are as
    /// many as the capacity; the queue then stays as it was.
    pub fn reserve(&mut self) -> Result<(), CqFull>
        ensures ok { OnOk result (self.new ≡ reserving self.old) }
        ensures full { IsErr result ↔ (used_places self.old ≡ self.old.capacity) }
        ensures err { OnErr result (self.new ≡ self.old) }
        ensures within { IsWithin self.new }
    {
        if self.entries.len() + self.reserved as usize == self.capacity as usize {
            return Err(CqFull);
        }
        self.reserved += 1;
        Ok(())
    }

    /// Gives a reserved place back.
    pub fn unreserve(&mut self)
        requires { 0 < self.old.reserved }
        ensures { self.new ≡ giving_back self.old }
    {
        self.reserved -= 1;
    }

    /// Puts a completion at the end, in a place that was reserved. It never fails.
    pub fn push(&mut self, c: Completion)
        requires { 0 < self.old.reserved }
        ensures { self.new ≡ completed self.old c }
    {
        self.reserved -= 1; // the entry takes it
        self.entries.push_back_reserved(c);
    }

    /// Entry `i`, counted from 0 for the oldest; None where there are fewer.
    pub fn at(&self, i: usize) -> Option<&Completion>
        ensures { option_copied result ≡ slice_get self.now.entries i }
    {
        self.entries.get(i)
    }

    /// Hands out the oldest entries, as many as there are or as fit, and says how many. What is in `out` behind them
    /// stays.
    pub fn poll_into(&mut self, out: &mut [Completion]) -> usize
        ensures count { result ≡ min (length out.old) (length self.old.entries) }
        ensures oldest { out.new ≡ take result self.old.entries ++ drop result out.old }
        ensures rest { self.new ≡ polled self.old result }
    {
        let mut n = 0;
        while n < out.len() {
            match self.entries.pop_front() {
                Some(c) => {
                    out[n] = c;
                    n += 1;
                }
                None => return n,
            }
        }
        n
    }

    /// How many entries there are.
    pub fn len(&self) -> usize
        ensures len { result ≡ length self.now.entries }
        ensures within { IsWithin self.now }
    {
        self.entries.len()
    }

    /// Whether there is no entry.
    pub fn is_empty(&self) -> bool
        ensures { IsTrue result ↔ (self.now.entries ≡ []) }
    {
        self.entries.is_empty()
    }

    /// How many entries the queue may hold.
    pub fn capacity(&self) -> u32
        ensures { result ≡ self.now.capacity }
    {
        self.capacity
    }

    /// How many places are reserved.
    pub fn reserved(&self) -> u32
        ensures reserved { result ≡ self.now.reserved }
        ensures within { IsWithin self.now }
    {
        self.reserved
    }
}
