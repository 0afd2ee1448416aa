//! A list of bounded length that grows at one end and shrinks at the other.

ghost use Rattle.std.specs.Prelude.{◌≡◌, ◌↔◌, [], length, slice_get, IfErr, IfOk, IsErr, IsTrue, OnErr, OnOk};
ghost use Rattle.std.specs.Option.{option_copied};
ghost use Rattle.end_queues.specs.Postings.{IsWithin, empty_queue, posting, without_front};

use std::alloc::{AllocError, Global};
use std::collections::VecDeque;
use std::marker::Model;

/// Posted work, the oldest first, never more than the depth. Only `make` takes memory, and each call takes constant
/// time.
#[derive(Drop)]
pub struct WorkQueue<T> {
    depth: u32,
    held: VecDeque<T>,
}

impl<T> Model for WorkQueue<T> {
    ghost use Rattle.std.specs.Prelude.{◌≤◌};
    ghost use Rattle.std.specs.VecDeque.{deque_len, deque_capacity};
    ghost use Rattle.end_queues.specs.Postings.{Queue};

    ghost Value = { Queue T };

    ghost view = { λ q. record { depth = q.depth; items = q.held.items } };

    ghost invariant = { λ q. (deque_len q.held ≤ q.depth) × (q.depth ≤ deque_capacity q.held) };
}

impl<T> WorkQueue<T> {
    /// An empty queue of this depth. Errors: `AllocError` when out of memory.
    pub fn make(alloc: Global, depth: u32) -> Result<WorkQueue<T>, AllocError>
        ensures { IfOk result (λ q. q ≡ empty_queue depth) }
    {
        let held = VecDeque::with_capacity(alloc, depth as usize)?;
        Ok(WorkQueue { depth, held })
    }

    /// Puts work at the end. Errors: the work itself, exactly where the depth is reached; the queue then stays as it
    /// was.
    pub fn post(&mut self, item: T) -> Result<(), T>
        ensures ok { OnOk result (self.new ≡ posting self.old item) }
        ensures full { IsErr result ↔ (length self.old.items ≡ self.old.depth) }
        ensures back { IfErr result (λ x. x ≡ item) }
        ensures err { OnErr result (self.new ≡ self.old) }
    {
        if self.held.len() == self.depth as usize {
            return Err(item);
        }
        self.held.push_back_reserved(item);
        Ok(())
    }

    /// Work `i`, counted from 0 for the oldest; None where there is less.
    pub fn at(&self, i: usize) -> Option<&T>
        ensures { option_copied result ≡ slice_get self.now.items i }
    {
        self.held.get(i)
    }

    /// Hands out the oldest work, if there is any.
    pub fn drop_front(&mut self) -> Option<T>
        ensures front { result ≡ slice_get self.old.items 0 }
        ensures rest { self.new ≡ without_front self.old }
    {
        self.held.pop_front()
    }

    /// How much work there is.
    pub fn len(&self) -> usize
        ensures len { result ≡ length self.now.items }
        ensures within { IsWithin self.now }
    {
        self.held.len()
    }

    /// Whether there is no work.
    pub fn is_empty(&self) -> bool
        ensures { IsTrue result ↔ (self.now.items ≡ []) }
    {
        self.held.is_empty()
    }

    /// How much work there may be.
    pub fn depth(&self) -> u32
        ensures { result ≡ self.now.depth }
    {
        self.depth
    }

    /// Lets an empty queue go, also one of work that has to be handed on and cannot be dropped.
    pub fn destroy_empty(self)
        requires { self.items ≡ [] }
    {
        let WorkQueue { depth: _, held } = self;
        held.destroy_empty();
    }
}
