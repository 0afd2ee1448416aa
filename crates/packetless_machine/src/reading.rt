//! What the machine tells of an end to one who follows a run. No reader takes memory.
#![tactic(auto, using(crate::proofs::Placing::placing), unfolding(rdma_types::specs::Spans::span, rdma_types::specs::Spans::pieces, crate::specs::Tables::place_where))]

ghost use Rattle.std.specs.Prelude.{◌≡◌, ◌<◌, ◌≤◌};
ghost use Rattle.rdma_types.specs.Kinds.{is_read, kind_of, size_of};
ghost use Rattle.rdma_types.specs.Spans.{piece_of, request_of, span_of};
ghost use Rattle.packetless_machine.specs.Machine.{end_of, posted_at};
ghost use Rattle.packetless_machine.specs.Reading.{is_offer_of};
ghost use Rattle.packetless_machine.specs.Tables.{place_where};

use crate::end::End;
use crate::kinds::is_read;
use crate::machine::PacketlessMachine;
use crate::mark::Mark;
use crate::numbers::span_of;
use crate::passed::Passed;
use crate::posted::{IdealRequest, Offered};
use rdma_types::ObjName;

/// The place of the request that packet number n belongs to, and which of its packets that is.
fn place_in(posted: &[IdealRequest], mtu: u32, n: u64) -> (usize, u64)
    requires { 0 < mtu }
    ensures request { result.0 ≡ request_of posted.now mtu n }
    ensures piece { result.1 ≡ piece_of posted.now mtu n }
{
    let mut left = n;
    for (i, r) in posted.iter().enumerate() {
        let span = span_of(r, mtu);
        if left < span {
            return (i, left);
        }
        left -= span;
    }
    (posted.len(), left)
}

/// Whether an offer is these bytes of a request, from an offset on.
#[tactic(auto)]
fn is_offer_of(o: &Offered, request: usize, offset: u32, bytes: &[u8]) -> bool
    ensures { result ≡ is_offer_of request offset bytes.now o.now }
{
    o.request == request && o.offset == offset && o.bytes.as_slice() == bytes
}

/// The place of the first offer of these bytes of a request, from an offset on, or else the number of offers.
#[tactic(auto)]
fn offer_in(offers: &[Offered], request: usize, offset: u32, bytes: &[u8]) -> usize
    ensures { result ≡ place_where (is_offer_of request offset bytes.now) offers.now }
{
    for (i, o) in offers.iter().enumerate() {
        if is_offer_of(o, request, offset, bytes) {
            return i;
        }
    }
    offers.len()
}

impl End {
    /// The place of the request that packet number n belongs to, and which of its packets that is.
    #[tactic(auto, using(crate::proofs::Marks::request_within))]
    fn place_of(&self, n: u64) -> (usize, u64)
        requires { 0 < self.now.mtu }
        ensures request { result.0 ≡ request_of self.now.posted self.now.mtu n }
        ensures piece { result.1 ≡ piece_of self.now.posted self.now.mtu n }
    {
        let Mark { place, number } = self.mark;
        if n < number {
            return place_in(&self.posted, self.mtu, n);
        }
        let (more, piece) = place_in(&self.posted[place..], self.mtu, n - number);
        (place + more, piece)
    }

    /// The place of the first offer that is these bytes of request number i, from an offset on, or else the number of
    /// its offers.
    #[tactic(auto, using(crate::proofs::Passing::place_within))]
    fn offer_place(&self, i: usize, offset: u32, bytes: &[u8]) -> usize
        ensures { result ≡ place_where (is_offer_of i offset bytes.now) self.now.offers }
    {
        let Passed { count, below } = self.passed;
        if i < below {
            return offer_in(&self.offers, i, offset, bytes);
        }
        count + offer_in(&self.offers[count..], i, offset, bytes)
    }
}

impl PacketlessMachine {
    /// The end that an end is connected to, or itself where there is none.
    pub fn peer(&self, q: &ObjName) -> ObjName
        ensures { result ≡ (end_of self.now q.now).peer }
    {
        match self.end(q) {
            Some(end) => end.peer,
            None => *q,
        }
    }

    /// The MTU of an end in bytes, 0 where it was never connected.
    pub fn mtu(&self, q: &ObjName) -> u32
        ensures { result ≡ (end_of self.now q.now).mtu }
    {
        match self.end(q) {
            Some(end) => end.mtu,
            None => 0,
        }
    }

    /// How many requests of an end are finished for its owner.
    pub fn told(&self, q: &ObjName) -> usize
        ensures { result ≡ (end_of self.now q.now).told }
    {
        match self.end(q) {
            Some(end) => end.told,
            None => 0,
        }
    }

    /// How many requests of an end acted at its peer.
    pub fn acted(&self, q: &ObjName) -> usize
        ensures { result ≡ (end_of self.now q.now).acted }
    {
        match self.end(q) {
            Some(end) => end.acted,
            None => 0,
        }
    }

    /// The place, from 0, of the request of an end that packet number n belongs to, and which of its packets that is,
    /// from 0. It passes over the end's requests up to that one, from the first that is not told on or else from the
    /// first of all.
    pub fn place_of(&self, q: &ObjName, n: u64) -> (usize, u64)
        requires { 0 < (end_of self.now q.now).mtu }
        ensures request { result.0 ≡ request_of (end_of self.now q.now).posted
            (end_of self.now q.now).mtu n }
        ensures piece { result.1 ≡ piece_of (end_of self.now q.now).posted
            (end_of self.now q.now).mtu n }
    {
        match self.end(q) {
            Some(end) => end.place_of(n),
            None => (0, n),
        }
    }

    /// The bytes of request number i of an end, and 0 where it posted fewer.
    pub fn length_at(&self, q: &ObjName, i: usize) -> u32
        ensures { result ≡ size_of (posted_at (end_of self.now q.now).posted i) }
    {
        match self.end(q) {
            Some(end) => end.posted.get(i).map_or(0, |r| r.length()),
            None => 0,
        }
    }

    /// Whether request number i of an end is a Read.
    pub fn is_read_at(&self, q: &ObjName, i: usize) -> bool
        ensures { result ≡ is_read (kind_of (posted_at (end_of self.now q.now).posted i)) }
    {
        match self.end(q) {
            Some(end) => end
                .posted
                .get(i)
                .is_some_and(|r| is_read(r.request.shape.kind)),
            None => false,
        }
    }

    /// How many packet numbers request number i of an end takes, and 1 where it posted fewer.
    pub fn span_at(&self, q: &ObjName, i: usize) -> u64
        requires { 0 < (end_of self.now q.now).mtu }
        ensures { result ≡ span_of (posted_at (end_of self.now q.now).posted i)
            (end_of self.now q.now).mtu }
    {
        let Some(end) = self.end(q) else {
            return 1;
        };
        match end.posted.get(i) {
            Some(r) => span_of(r, end.mtu),
            None => 1,
        }
    }

    /// The place of the first offer to an end that is these bytes of request number i, from an offset on, or else the
    /// number of its offers.
    pub fn offer_place(&self, q: &ObjName, i: usize, offset: u32, bytes: &[u8]) -> usize
        ensures { result ≡ place_where (is_offer_of i offset bytes.now)
            (end_of self.now q.now).offers }
    {
        match self.end(q) {
            Some(end) => end.offer_place(i, offset, bytes),
            None => 0,
        }
    }
}
