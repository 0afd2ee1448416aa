//! Making a requester and posting to it, and its parts.

ghost use Rattle.std.specs.Prelude.{◌≡◌, ◌+◌, ◌<◌, ◌^◌, ◌↔◌, [], length, slice_get, IfErr, IfOk, IsErr, OnErr, OnOk};
ghost use Rattle.std.specs.Option.{option_copied};
ghost use Rattle.rdma_types.specs.Spans.{span};
ghost use Rattle.protocol.specs.Requester.{end_of_queue};
ghost use Rattle.requester.specs.Sending.{AreInOrder, bares, no_numbers, posting, sender_of, sender_with};

use crate::answers::RequesterParts;
use crate::caches::DerivedNumbers;
use crate::{Requester, kinds};
use end_queues::work_queues::{QueuedRequest, SendQueue, copy_sends};
use rdma_types::Terms;
use std::alloc::{AllocError, Global};
use transport::segmenter::span_of;

impl Requester {
    /// The requester of a new connection, whose first packet has number 0.
    pub fn make(terms: &Terms, queue: SendQueue) -> Requester
        requires empty { queue.items ≡ [] }
        requires mtu { 0 < terms.now.mtu }
        ensures { result
            ≡ record { terms = terms.now; depth = queue.depth; items = []; numbers = no_numbers } }
    {
        let numbers = RequesterParts {
            first: 0,
            una: 0,
            next: 0,
            top: 0,
            spent: 0,
            waits: 0,
            rnr_wait: false,
        };
        Requester::from_parts(terms, queue, numbers)
    }

    /// The requester with these requests and numbers, as an image says them.
    pub fn from_parts(terms: &Terms, queue: SendQueue, parts: RequesterParts) -> Requester
        requires mtu { 0 < terms.now.mtu }
        requires order { AreInOrder terms.now (sender_with (bares queue.items) parts) }
        ensures { result
            ≡ record {
              terms = terms.now;
              depth = queue.depth;
              items = queue.items;
              numbers = parts;
            } }
    {
        let caches = DerivedNumbers::of(terms, &queue, &parts);
        Requester {
            terms: *terms,
            queue,
            numbers: parts,
            caches,
        }
    }

    /// An equal requester, for a copy of the pool of its payloads. Errors: `AllocError` when out of memory.
    pub fn copy(&self, alloc: Global) -> Result<Requester, AllocError>
        ensures { IfOk result (λ r. r ≡ self.now) }
    {
        Ok(Requester {
            terms: self.terms,
            queue: copy_sends(alloc, &self.queue)?,
            numbers: self.numbers,
            caches: self.caches,
        })
    }

    /// Puts a request at the end of the queue. Errors: the request itself, exactly where the depth is reached; all then
    /// stays as it was.
    pub fn post(&mut self, p: QueuedRequest) -> Result<(), QueuedRequest>
        requires below_limit { end_of_queue self.old.terms (sender_of self.old)
            + span p.request.shape self.old.terms.mtu < 2 ^ 62 }
        ensures ok { OnOk result (self.new ≡ posting self.old p) }
        ensures full { IsErr result ↔ (length self.old.items ≡ self.old.depth) }
        ensures back { IfErr result (λ x. x ≡ p) }
        ensures err { OnErr result (self.new ≡ self.old) }
    {
        let span = span_of(&p.request.shape, self.terms.mtu);
        let stays = self
            .caches
            .barrier_stays(p.request.shape.kind, self.queue.len());
        self.queue.post(p)?;
        self.caches = self.caches.posted(span, stays);
        Ok(())
    }

    /// Request `i` of those that are not told, counted from 0 for the oldest; None where there are fewer.
    pub fn posted(&self, i: usize) -> Option<&QueuedRequest>
        ensures { option_copied result ≡ slice_get self.now.items i }
    {
        self.queue.at(i)
    }

    /// How many requests are not told.
    pub fn untold(&self) -> u32
        ensures { result ≡ length self.now.items }
    {
        let _most = self.queue.depth();
        self.queue.len() as u32
    }

    /// The number past the last request.
    pub fn end(&self) -> u64
        ensures { result ≡ end_of_queue self.now.terms (sender_of self.now) }
    {
        self.caches.end
    }

    /// Its numbers.
    pub fn parts(&self) -> RequesterParts
        ensures parts { result ≡ self.now.numbers }
        ensures order { AreInOrder self.now.terms (sender_of self.now) }
    {
        let _end = self.caches.end;
        self.numbers
    }
}
