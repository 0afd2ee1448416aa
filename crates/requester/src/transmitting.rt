//! What is sent next, and from where it is sent again.

ghost use Rattle.std.specs.Prelude.{◌≡◌, ◌+◌, ◌-◌, ◌<◌, ◌≤◌, ◌^◌, ◌==◌, ◌||◌, Some, if◌then◌else◌};
ghost use Rattle.rdma_types.specs.Kinds.{is_read};
ghost use Rattle.rdma_types.specs.Spans.{piece_at, request_of, span};
ghost use Rattle.protocol.specs.Requester.{counted, going_to, past as past_piece, rewound, waited_out};
ghost use Rattle.requester.specs.Marks.{IsMark};
ghost use Rattle.requester.specs.Sending.{KeepsQueue, bares, sender_of};
ghost use Rattle.requester.specs.Taking.{request_at};
ghost use Rattle.requester.specs.Transmitting.{IsHeadOf, after_row, next_row, piece_said, row_said};

use crate::answers::{Expiry, Transmit};
use crate::marks::Mark;
use crate::{Requester, kinds};
use rdma_types::Shape;
use transport::segmenter::packet_of;

/// Unacknowledged request packets of an end (this project's choice).
const WINDOW: u64 = 64;

/// Where the next number `n` goes past piece `k` of a request that takes `count` numbers: for a Read past the whole Read.
fn past(n: u64, shape: &Shape, k: u64, count: u64) -> u64
    requires begun { k ≤ n }
    requires limit { n - k + count < 2 ^ 62 }
    requires inside { k < count }
    ensures { result ≡ (if is_read shape.now.kind then (n - k) + count else n + 1) }
{
    if kinds::is_read(shape.kind) {
        n - k + count
    } else {
        n + 1
    }
}

impl Requester {
    /// Sends the next packet of a Running end that is not in Error, and answers by the first row that holds: Waiting,
    /// Idle, WindowFull, ReadsFull, Fenced, and else Sent.
    pub fn transmit(&mut self) -> Transmit
        ensures row { row_said self.old.terms (sender_of self.old) result
            ≡ next_row self.old.terms (sender_of self.old) }
        ensures head { IsHeadOf self.old.terms (sender_of self.old) result }
        ensures numbers { sender_of self.new
            ≡ after_row self.old.terms (sender_of self.old) (next_row self.old.terms (sender_of self.old)) }
        ensures kept { KeepsQueue self.old self.new }
    {
        if self.numbers.rnr_wait {
            return Transmit::Waiting;
        }
        if self.numbers.next == self.caches.end {
            return Transmit::Idle;
        }
        if self.caches.packets >= WINDOW {
            return Transmit::WindowFull;
        }
        let n = self.numbers.next - self.numbers.first;
        let at = self.caches.mark_of(&self.queue, self.terms.mtu, n);
        let Some(p) = self.queue.at(at.index) else {
            unreachable!()
        };
        let shape = p.request.shape;
        let fence = p.request.fence;
        let k = n - at.offset;
        if self.caches.reads_full(shape.kind, self.terms.reads) {
            return Transmit::ReadsFull;
        }
        if self.caches.is_fenced(fence, k, self.numbers.next) {
            return Transmit::Fenced;
        }
        let number = self.numbers.next;
        let count = self.caches.count_at(at, n, &shape, self.terms.mtu);
        let head = packet_of(&shape, k, count, self.terms.mtu);
        self.pass(at, &shape, k, count);
        Transmit::Sent {
            number,
            index: at.index,
            head,
        }
    }

    /// The next number goes past piece `k` of the request at a mark, which takes `count` numbers, for a Read past the
    /// whole Read.
    fn pass(&mut self, at: Mark, shape: &Shape, k: u64, count: u64)
        requires count { count ≡ span shape.now self.old.terms.mtu }
        requires mark { IsMark (bares self.old.items) self.old.terms.mtu at }
        requires index { at.index
            ≡ request_of (bares self.old.items) self.old.terms.mtu (self.old.numbers.next - self.old.numbers.first) }
        requires here { at.offset + k + self.old.numbers.first ≡ self.old.numbers.next }
        requires shape { shape.now ≡ (request_at (sender_of self.old) at.index).request.shape }
        requires piece { piece_at (bares self.old.items) self.old.terms.mtu (self.old.numbers.next - self.old.numbers.first)
            ≡ Some (record { posted = request_at (sender_of self.old) at.index; k = k }) }
        ensures numbers { sender_of self.new
            ≡ going_to (sender_of self.old)
            (past_piece self.old.terms self.old.numbers.next (record { posted = request_at (sender_of self.old) at.index; k = k })) }
        ensures kept { KeepsQueue self.old self.new }
    {
        let next = past(self.numbers.next, shape, k, count);
        let lands = kinds::lands(shape.kind);
        self.caches = self.caches.sent(at, at.offset + count, lands);
        self.numbers = self.numbers.with_next(next);
    }

    /// All is sent again from the oldest unacknowledged number on (go-back-N).
    pub fn rewind(&mut self)
        ensures numbers { sender_of self.new ≡ rewound (sender_of self.old) }
        ensures kept { KeepsQueue self.old self.new }
    {
        self.caches = self.caches.rewound();
        self.numbers = self.numbers.rewound();
    }

    /// The retransmission timer of a Running end expired. It is not counted exactly where the end waits for the timer of
    /// receiver not ready or nothing is in flight; where the retries were spent all stays as it was, and the end fails.
    pub fn expire(&mut self) -> Expiry
        ensures answer { result
            ≡ (if self.old.numbers.rnr_wait || self.old.numbers.next == self.old.numbers.una
            then Expiry.NotCounted
            else if self.old.numbers.spent == self.old.terms.retry then Expiry.Spent else Expiry.Counted (self.old.numbers.spent + 1)) }
        ensures numbers { sender_of self.new
            ≡ (if self.old.numbers.rnr_wait || (self.old.numbers.next == self.old.numbers.una || self.old.numbers.spent == self.old.terms.retry)
            then sender_of self.old
            else counted (sender_of self.old)) }
        ensures kept { KeepsQueue self.old self.new }
    {
        if self.numbers.rnr_wait || self.numbers.next == self.numbers.una {
            return Expiry::NotCounted;
        }
        if self.numbers.spent == self.terms.retry {
            return Expiry::Spent;
        }
        let spent = self.numbers.spent + 1;
        self.caches = self.caches.rewound();
        self.numbers = self.numbers.counted(spent);
        Expiry::Counted(spent)
    }

    /// The timer of receiver not ready is over. Answers whether the end waited for it.
    pub fn rnr_over(&mut self) -> bool
        ensures waited { result ≡ self.old.numbers.rnr_wait }
        ensures numbers { sender_of self.new ≡ waited_out (sender_of self.old) }
        ensures kept { KeepsQueue self.old self.new }
    {
        let waited = self.numbers.rnr_wait;
        self.numbers.rnr_wait = false;
        waited
    }
}
