//! Requests that leave the queue.

ghost use Rattle.std.specs.Prelude.{◌≡◌, ◌-◌, ◌≤◌, slice_get, IfNone, OnSome, false};
ghost use Rattle.requester.specs.Sending.{KeepsQueue, sender_of};
ghost use Rattle.requester.specs.Telling.{LosesOldest, failing_without_oldest, next_to_tell, without_oldest};

use crate::Requester;
use crate::answers::RequesterParts;
use crate::caches::DerivedNumbers;
use crate::marks::{FRONT, Mark};
use end_queues::work_queues::QueuedRequest;
use transport::segmenter::span_of;

/// The numbers of an end that fails: all the first past the last request, but that of the oldest request left.
fn failed_numbers(first: u64, end: u64) -> RequesterParts
    ensures { result
        ≡ record {
          first = first;
          una = end;
          next = end;
          top = end;
          spent = 0;
          waits = 0;
          rnr_wait = false;
        } }
{
    RequesterParts {
        first,
        una: end,
        next: end,
        top: end,
        spent: 0,
        waits: 0,
        rnr_wait: false,
    }
}

/// What is kept where nothing is in flight and `len` requests are left, which take the numbers from `first` up to `end`.
fn failed_caches(first: u64, end: u64, len: usize) -> DerivedNumbers
    requires { first ≤ end }
    ensures { result ≡ record {
      end = end;
      cursor = record { index = 0; offset = 0 };
      cursor_past = 0;
      barrier = end;
      barrier_at = record { index = len; offset = end - first };
      packets = 0;
      reads = 0;
    } }
{
    DerivedNumbers {
        end,
        cursor: FRONT,
        cursor_past: 0,
        barrier: end,
        barrier_at: Mark {
            index: len,
            offset: end - first,
        },
        packets: 0,
        reads: 0,
    }
}

impl Requester {
    /// Hands out the oldest request that is acknowledged whole, which is then told; None exactly where some of its numbers
    /// are not acknowledged, or there is none.
    pub fn next_told(&mut self) -> Option<QueuedRequest>
        ensures told { result ≡ next_to_tell self.old }
        ensures rest { OnSome result (LosesOldest self.old self.new) }
        ensures numbers { OnSome result (sender_of self.new
            ≡ without_oldest self.old.terms (sender_of self.old)) }
        ensures none { IfNone result (self.new ≡ self.old) }
    {
        let span = span_of(&self.queue.at(0)?.request.shape, self.terms.mtu);
        if self.numbers.una - self.numbers.first < span {
            return None;
        }
        let told = self.queue.drop_front();
        self.caches = self.caches.without_first(span);
        self.numbers.first += span;
        told
    }

    /// Hands out the oldest request of an end that fails, whether it is acknowledged or not; None exactly where there is
    /// none. All numbers but that of the oldest request left are then the first past the last request, and nothing is
    /// counted or waited for.
    pub fn cut(&mut self) -> Option<QueuedRequest>
        ensures cut { result ≡ slice_get self.old.items 0 }
        ensures rest { LosesOldest self.old self.new }
        ensures numbers { sender_of self.new ≡ failing_without_oldest self.old.terms
            (sender_of self.old) }
    {
        let end = self.caches.end;
        let Some(p) = self.queue.at(0) else {
            self.numbers = failed_numbers(end, end);
            self.caches = failed_caches(end, end, 0);
            return None;
        };
        let first = self.numbers.first + span_of(&p.request.shape, self.terms.mtu);
        let cut = self.queue.drop_front();
        self.numbers = failed_numbers(first, end);
        self.caches = failed_caches(first, end, self.queue.len());
        cut
    }
}
