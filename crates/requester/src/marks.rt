//! Places in a queue of requests.

ghost use Rattle.std.specs.Prelude.{◌≡◌, ◌+◌, ◌-◌, ◌<◌, ◌≤◌, ◌^◌, false};
ghost use Rattle.rdma_types.specs.Spans.{end_number, next_landing, request_of};
ghost use Rattle.requester.specs.Sending.{bares};
ghost use Rattle.requester.specs.Marks.{IsMark};

use crate::kinds;
use end_queues::work_queues::SendQueue;
use transport::segmenter::span_of;

/// A place in a queue, and how many numbers the requests before it take.
#[derive(Clone, Copy)]
pub struct Mark {
    pub index: usize,
    pub offset: u64,
}

/// The front of a queue.
pub const FRONT: Mark = Mark {
    index: 0,
    offset: 0,
};

/// The mark of the request that has number `n`, counted from the front of the queue, or of the end where none has. It is
/// sought from a mark that is not past it.
pub fn seek(queue: &SendQueue, mtu: u32, from: Mark, n: u64) -> Mark
    requires mtu { 0 < mtu }
    requires limit { end_number (bares queue.now.items) mtu < 2 ^ 62 }
    requires mark { IsMark (bares queue.now.items) mtu from }
    requires before { from.offset ≤ n }
    ensures mark { IsMark (bares queue.now.items) mtu result }
    ensures index { result.index ≡ request_of (bares queue.now.items) mtu n }
    ensures before { result.offset ≤ n }
{
    let mut at = from;
    while let Some(p) = queue.at(at.index) {
        let past = at.offset + span_of(&p.request.shape, mtu);
        if n < past {
            break;
        }
        at = Mark {
            index: at.index + 1,
            offset: past,
        };
    }
    at
}

/// The mark of the first Read or atomic from a mark on, or of the end of the queue.
fn seek_landing(queue: &SendQueue, mtu: u32, from: Mark) -> Mark
    requires mtu { 0 < mtu }
    requires limit { end_number (bares queue.now.items) mtu < 2 ^ 62 }
    requires mark { IsMark (bares queue.now.items) mtu from }
    ensures mark { IsMark (bares queue.now.items) mtu result }
    ensures landing { result.offset ≡ next_landing (bares queue.now.items) mtu from.offset }
    ensures index { result.index ≡ request_of (bares queue.now.items) mtu result.offset }
{
    let mut at = from;
    while let Some(p) = queue.at(at.index) {
        if kinds::lands(p.request.shape.kind) {
            break;
        }
        at = Mark {
            index: at.index + 1,
            offset: at.offset + span_of(&p.request.shape, mtu),
        };
    }
    at
}

/// A number of a Read or atomic, counted from the front of the queue, and its request; or the end of the queue.
#[derive(Clone, Copy)]
pub struct Landing {
    pub number: u64,
    pub at: Mark,
}

/// The first number from `n` on that belongs to a Read or atomic, and otherwise the end. It is sought from a mark that is
/// not past `n`.
pub fn seek_barrier(queue: &SendQueue, mtu: u32, from: Mark, n: u64) -> Landing
    requires mtu { 0 < mtu }
    requires limit { end_number (bares queue.now.items) mtu < 2 ^ 62 }
    requires mark { IsMark (bares queue.now.items) mtu from }
    requires before { from.offset ≤ n }
    requires within { n ≤ end_number (bares queue.now.items) mtu }
    ensures number { result.number ≡ next_landing (bares queue.now.items) mtu n }
    ensures mark { IsMark (bares queue.now.items) mtu result.at }
    ensures index { result.at.index ≡ request_of (bares queue.now.items) mtu result.number }
{
    let at = seek(queue, mtu, from, n);
    let Some(p) = queue.at(at.index) else {
        return Landing { number: n, at };
    };
    if kinds::lands(p.request.shape.kind) {
        return Landing { number: n, at };
    }
    let at = seek_landing(queue, mtu, at);
    Landing {
        number: at.offset,
        at,
    }
}

/// The first number behind `n` that belongs to a Read or atomic, and otherwise the end, where `n` is a number of the Read
/// or atomic at a mark, and its last one or not.
pub fn barrier_behind(queue: &SendQueue, mtu: u32, at: Mark, n: u64, last: bool) -> Landing
    requires mtu { 0 < mtu }
    requires limit { end_number (bares queue.now.items) mtu < 2 ^ 62 }
    requires mark { IsMark (bares queue.now.items) mtu at }
    requires before { at.offset ≤ n }
    requires within { n < end_number (bares queue.now.items) mtu }
    requires number { last ≡ false → next_landing (bares queue.now.items) mtu (n + 1) ≡ n + 1 }
    requires index { last ≡ false → request_of (bares queue.now.items) mtu (n + 1) ≡ at.index }
    ensures number { result.number ≡ next_landing (bares queue.now.items) mtu (n + 1) }
    ensures mark { IsMark (bares queue.now.items) mtu result.at }
    ensures index { result.at.index ≡ request_of (bares queue.now.items) mtu result.number }
{
    if last {
        seek_barrier(queue, mtu, at, n + 1)
    } else {
        Landing { number: n + 1, at }
    }
}

impl Mark {
    /// The same place once the front request, which took `span` numbers, has left the queue.
    pub fn without_first(self, span: u64) -> Mark
        ensures { result ≡ record { index = self.index - 1; offset = self.offset - span } }
    {
        Mark {
            index: self.index.saturating_sub(1),
            offset: self.offset.saturating_sub(span),
        }
    }
}
