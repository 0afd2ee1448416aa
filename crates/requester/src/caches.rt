//! What a requester keeps so that no call looks through the queue.

ghost use Rattle.std.specs.Prelude.{◌≡◌, ◌+◌, ◌-◌, ◌<◌, ◌≤◌, ◌^◌, ◌==◌, ◌&&◌, ◌||◌, max, min, nat_le, nat_lt, if◌then◌else◌};
ghost use Rattle.rdma_types.specs.Kinds.{is_read, lands};
ghost use Rattle.rdma_types.specs.Spans.{end_number, request_of, span};
ghost use Rattle.protocol.specs.Requester.{packets_in_flight, reads_in_flight};
ghost use Rattle.requester.specs.Sending.{AreInOrder, bares, sender_with};
ghost use Rattle.requester.specs.Held.{IsHeld};
ghost use Rattle.requester.specs.Marks.{IsMark, IsPast};

use crate::answers::RequesterParts;
use crate::kinds;
use crate::marks::{FRONT, Mark, seek, seek_barrier};
use end_queues::work_queues::SendQueue;
use rdma_types::{Kind, Shape, Terms};
use transport::segmenter::span_of;

/// Places in the queue and counts of what is in flight.
#[derive(Clone, Copy)]
pub struct DerivedNumbers {
    /// The number past the last request.
    pub end: u64,
    /// A request not past that of the next number.
    pub cursor: Mark,
    /// One past the last number of the request at the cursor, counted from the front of the queue; not past the cursor
    /// where it is not counted.
    pub cursor_past: u64,
    /// The first number from the oldest unacknowledged one on whose Read response or atomic answer has not landed, or the
    /// end.
    pub barrier: u64,
    /// Its request.
    pub barrier_at: Mark,
    /// Request packets in flight; a Read counts as one.
    pub packets: u64,
    /// Reads and atomics in flight.
    pub reads: u64,
}

/// The numbers that requests take, and what of them is in flight.
#[derive(Clone, Copy)]
struct Counts {
    end: u64,
    packets: u64,
    reads: u64,
}

/// How many numbers from `low` up to `high` are in flight.
fn overlap(low: u64, high: u64, numbers: &RequesterParts) -> u64
    ensures { result ≡ min high numbers.now.next - max low numbers.now.una }
{
    high.min(numbers.next).saturating_sub(low.max(numbers.una))
}

/// Request packets in flight of one request with so many numbers in flight.
fn packets_of(kind: Kind, inside: u64) -> u64
    ensures { result ≡ (if is_read kind then min 1 inside else inside) }
{
    if kinds::is_read(kind) {
        inside.min(1)
    } else {
        inside
    }
}

/// 1 for a Read or atomic with numbers in flight, and else 0.
fn reads_of(kind: Kind, inside: u64) -> u64
    ensures { result ≡ (if lands kind then min 1 inside else 0) }
{
    if kinds::lands(kind) { inside.min(1) } else { 0 }
}

fn count(terms: &Terms, queue: &SendQueue, numbers: &RequesterParts) -> Counts
    requires mtu { 0 < terms.now.mtu }
    requires order { AreInOrder terms.now (sender_with (bares queue.now.items) numbers.now) }
    ensures end { result.end ≡ numbers.now.first
        + end_number (bares queue.now.items) terms.now.mtu }
    ensures packets { result.packets
        ≡ packets_in_flight (bares queue.now.items) terms.now.mtu numbers.now.first numbers.now.una numbers.now.next }
    ensures reads { result.reads
        ≡ reads_in_flight (bares queue.now.items) terms.now.mtu numbers.now.first numbers.now.una numbers.now.next }
{
    let mut counts = Counts {
        end: numbers.first,
        packets: 0,
        reads: 0,
    };
    let mut index = 0;
    while let Some(p) = queue.at(index) {
        let kind = p.request.shape.kind;
        let low = counts.end;
        let high = low + span_of(&p.request.shape, terms.mtu);
        let inside = overlap(low, high, numbers);
        counts.end = high;
        counts.packets += packets_of(kind, inside);
        counts.reads += reads_of(kind, inside);
        index += 1;
    }
    counts
}

/// 1 where it holds, and else 0.
fn one_if(holds: bool) -> u64
    ensures { result ≡ (if holds then 1 else 0) }
{
    if holds { 1 } else { 0 }
}

impl DerivedNumbers {
    /// What a requester with this queue and these numbers keeps. It goes through the queue.
    pub fn of(terms: &Terms, queue: &SendQueue, numbers: &RequesterParts) -> DerivedNumbers
        requires mtu { 0 < terms.now.mtu }
        requires order { AreInOrder terms.now (sender_with (bares queue.now.items) numbers.now) }
        ensures { IsHeld terms.now (sender_with (bares queue.now.items) numbers.now) result }
    {
        let counts = count(terms, queue, numbers);
        let una = numbers.una - numbers.first;
        let barrier = seek_barrier(queue, terms.mtu, FRONT, una);
        DerivedNumbers {
            end: counts.end,
            cursor: FRONT,
            cursor_past: 0,
            barrier: numbers.first + barrier.number,
            barrier_at: barrier.at,
            packets: counts.packets,
            reads: counts.reads,
        }
    }

    /// Whether a request of this kind waits, since as many Reads and atomics are in flight as may be.
    pub fn reads_full(&self, kind: Kind, most: u8) -> bool
        ensures { result ≡ (lands kind && nat_le most self.now.reads) }
    {
        kinds::lands(kind) && self.reads >= u64::from(most)
    }

    /// Whether piece `k` of a request, which has number `next`, waits at its fence.
    pub fn is_fenced(&self, fence: bool, k: u64, next: u64) -> bool
        ensures { result ≡ (fence && (k == 0 && nat_lt self.now.barrier next)) }
    {
        fence && (k == 0 && self.barrier < next)
    }

    /// Whether the barrier stays where a request of this kind is posted behind `len` others: it is not the end, or is then
    /// the new request's first number.
    pub fn barrier_stays(&self, kind: Kind, len: usize) -> bool
        ensures { result ≡ (lands kind || nat_lt self.now.barrier_at.index len) }
    {
        kinds::lands(kind) || self.barrier_at.index < len
    }

    /// One more request is posted, which takes `span` numbers; the barrier stays or goes past it.
    pub fn posted(self, span: u64, stays: bool) -> DerivedNumbers
        requires end { self.end + span < 2 ^ 62 }
        requires barrier { self.barrier ≤ self.end }
        requires offset { self.barrier_at.offset ≤ self.end }
        requires index { self.barrier_at.index < 2 ^ 63 }
        ensures { result
            ≡ record self {
              end = self.end + span;
              barrier = if stays then self.barrier else self.barrier + span;
              barrier_at = if stays then self.barrier_at else record { index = self.barrier_at.index + 1; offset = self.barrier_at.offset + span };
            } }
    {
        let end = self.end + span;
        if stays {
            return DerivedNumbers { end, ..self };
        }
        let barrier_at = Mark {
            index: self.barrier_at.index + 1,
            offset: self.barrier_at.offset + span,
        };
        DerivedNumbers {
            end,
            barrier: self.barrier + span,
            barrier_at,
            ..self
        }
    }

    /// The mark of the request that has number `n`, counted from the front of the queue, or of the end where none has. It
    /// is not past the cursor.
    pub fn mark_of(&self, queue: &SendQueue, mtu: u32, n: u64) -> Mark
        requires mtu { 0 < mtu }
        requires limit { end_number (bares queue.now.items) mtu < 2 ^ 62 }
        requires cursor { IsMark (bares queue.now.items) mtu self.now.cursor }
        requires past { IsPast (bares queue.now.items) mtu self.now.cursor self.now.cursor_past }
        requires before { self.now.cursor.offset ≤ n }
        ensures mark { IsMark (bares queue.now.items) mtu result }
        ensures index { result.index ≡ request_of (bares queue.now.items) mtu n }
        ensures before { result.offset ≤ n }
    {
        if n < self.cursor_past {
            self.cursor
        } else {
            seek(queue, mtu, self.cursor, n)
        }
    }

    /// How many numbers the request at a mark takes, which has number `n`.
    pub fn count_at(&self, at: Mark, n: u64, shape: &Shape, mtu: u32) -> u64
        requires mtu { 0 < mtu }
        requires past { n < self.now.cursor_past → self.now.cursor_past ≡ at.offset + span shape.now mtu }
        ensures { result ≡ span shape.now mtu }
    {
        if n < self.cursor_past {
            self.cursor_past - at.offset
        } else {
            span_of(shape, mtu)
        }
    }

    /// A packet of the request at a mark is sent, whose numbers end before `past`, counted from the front of the queue.
    pub fn sent(self, at: Mark, past: u64, lands: bool) -> DerivedNumbers
        requires packets { self.packets < 2 ^ 63 }
        requires reads { self.reads < 2 ^ 63 }
        ensures { result
            ≡ record self { cursor = at; cursor_past = past; packets = self.packets + 1; reads = self.reads + (if lands then 1 else 0) } }
    {
        DerivedNumbers {
            cursor: at,
            cursor_past: past,
            packets: self.packets + 1,
            reads: self.reads + one_if(lands),
            ..self
        }
    }

    /// Nothing is in flight, and all is sent again.
    pub fn rewound(self) -> DerivedNumbers
        ensures { result
            ≡ record self { cursor = record { index = 0; offset = 0 }; cursor_past = 0; packets = 0; reads = 0 } }
    {
        DerivedNumbers {
            cursor: FRONT,
            cursor_past: 0,
            packets: 0,
            reads: 0,
            ..self
        }
    }

    /// Numbers below `n`, which is not past the barrier, are acknowledged.
    pub fn acknowledged(self, numbers: &RequesterParts, n: u64) -> DerivedNumbers
        requires una { numbers.now.una ≤ n }
        requires packets { n < numbers.now.next → n - numbers.now.una ≤ self.packets }
        ensures { result
            ≡ record self {
              packets = if nat_lt n numbers.now.next then self.packets - (n - numbers.now.una) else 0;
              reads = if nat_lt n numbers.now.next then self.reads else 0;
            } }
    {
        if n < numbers.next {
            let packets = self.packets - (n - numbers.una);
            return DerivedNumbers { packets, ..self };
        }
        DerivedNumbers {
            packets: 0,
            reads: 0,
            ..self
        }
    }

    /// The response at the barrier has landed, and this is the next one; all before it is acknowledged.
    pub fn landed(
        self,
        numbers: &RequesterParts,
        last: bool,
        barrier: u64,
        at: Mark,
    ) -> DerivedNumbers
        requires una { numbers.now.una ≤ self.barrier }
        requires packets { self.barrier < numbers.now.next
            → self.barrier - numbers.now.una + (if last then 1 else 0) ≤ self.packets }
        requires reads { self.barrier < numbers.now.next → (if last then 1 else 0) ≤ self.reads }
        ensures { result
            ≡ record self {
              barrier = barrier;
              barrier_at = at;
              packets = if nat_lt self.barrier numbers.now.next then self.packets - (self.barrier - numbers.now.una + (if last then 1 else 0)) else 0;
              reads = if nat_lt self.barrier numbers.now.next then self.reads - (if last then 1 else 0) else 0;
            } }
    {
        let flying = self.barrier < numbers.next;
        let passed = one_if(last);
        DerivedNumbers {
            barrier,
            barrier_at: at,
            packets: if flying {
                self.packets - (self.barrier - numbers.una + passed)
            } else {
                0
            },
            reads: if flying { self.reads - passed } else { 0 },
            ..self
        }
    }

    /// The oldest request, which took `span` numbers, has left the queue.
    pub fn without_first(self, span: u64) -> DerivedNumbers
        ensures { result
            ≡ record self {
              cursor = record { index = self.cursor.index - 1; offset = self.cursor.offset - span };
              cursor_past = self.cursor_past - span;
              barrier_at = record { index = self.barrier_at.index - 1; offset = self.barrier_at.offset - span };
            } }
    {
        DerivedNumbers {
            cursor: self.cursor.without_first(span),
            cursor_past: self.cursor_past.saturating_sub(span),
            barrier_at: self.barrier_at.without_first(span),
            ..self
        }
    }
}
