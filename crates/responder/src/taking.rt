//! Requests in the order of the checks.

ghost use Rattle.std.specs.Prelude.{◌≡◌, ℕ, List, ◌+◌, ◌<◌, ◌≤◌, ◌&&◌, IfSome, IsTrue, Some, false};
ghost use Rattle.end_queues.specs.Completions as completions;
ghost use Rattle.end_queues.specs.Postings as work;
ghost use Rattle.rdma_types.specs.Limits.{most_bytes, number_limit};
ghost use Rattle.rdma_types.specs.Objects.{Region};
ghost use Rattle.rdma_types.specs.declared.names.Name.{Name};
ghost use Rattle.rdma_types.specs.declared.requests.Receive.{Receive};
ghost use Rattle.page_pool.specs.Pool.{Pool, free_pages};
ghost use Rattle.memory_keys.specs.Regions.{AreHeld, AreKeyed, IsSpot, KeepsOthers, regions_of};
ghost use Rattle.protocol.specs.Responder as words;
ghost use Rattle.protocol.specs.Wire.{Fits, is_request};
ghost use Rattle.roce_headers.specs.Packets.{packet};
ghost use Rattle.responder.specs.Receiving.{IsHeld, waiting};
ghost use Rattle.responder.specs.Sound.{IsSound};
ghost use Rattle.responder.specs.Taken.{IsMiddle, IsRead, IsTaken, IsTarget, KeepsRegions, place_next, target_in};
ghost use Rattle.responder.specs.Taking.{ahead_taking, answers, around_with, end_of, expected_taking, granted_taking, link_with, repeated_read_taking, repeated_taking, taken_request, taking, with_done};

use crate::kinds::{Part, is_read_request, is_send, is_write};
use crate::places::write;
use crate::{DropReason, Flow, RefusalReason, Reply, Responder, places};
use end_queues::completion_queue::Cq;
use end_queues::work_queues::RecvQueue;
use memory_keys::{RegionRange, Regions};
use page_pool::PagePool;
use rdma_types::limits::NUMBER_LIMIT;
use rdma_types::{Name, Rights};
use roce_headers::opcodes::WRITE_MIDDLE;
use roce_headers::{Datagram, Reth};
use transport::psn_math::{PsnOrder, place, unwrap_near, wire_of};
use transport::segmenter::pieces_of;

/// A SEND that begins a message, or the last packet of a WRITE with immediate.
fn needs_receive(d: &Datagram<'_>) -> bool
    ensures { result ≡ words.needs_receive (packet d.now) }
{
    is_send(d.opcode) && Part::of(d.opcode).begins() || is_write(d.opcode) && d.imm.is_some()
}

/// Check 3: a receive is needed, and none is there.
fn is_not_ready(recvs: &RecvQueue, d: &Datagram<'_>) -> bool
    ensures { result ≡ (words.needs_receive (packet d.now) && words.is_empty recvs.now.items) }
{
    needs_receive(d) && recvs.is_empty()
}

impl Responder {
    /// What a request does at an end that is neither Paused nor in Error, of this domain and this queue pair number. It is
    /// any packet of the grammar with the opcode of a request. Each receive of the end, in use or unused, has a place
    /// reserved in the completion queue.
    pub fn take_request(
        &mut self,
        pool: &mut PagePool,
        regions: &mut Regions,
        domain: Name,
        recvs: &mut RecvQueue,
        cq: &mut Cq,
        qp: u32,
        d: &Datagram<'_>,
    ) -> Reply
        requires fits { Fits (packet d.now) }
        requires request { IsTrue (is_request d.now.opcode) }
        requires held { AreHeld pool.old regions.old }
        requires sound { IsSound regions.old domain self.old recvs.old.items }
        requires reserved { waiting self.old.receiver recvs.old.items ≤ cq.old.reserved }
        ensures reply { result
            ≡ (taken_request self.old.terms domain qp self.old.receiver
            (regions_of pool.old regions.old) recvs.old.items (packet d.now)).reply }
        ensures receiver { self.new
            ≡ record self.old {
              receiver = (taken_request self.old.terms domain qp self.old.receiver
                  (regions_of pool.old regions.old) recvs.old.items (packet d.now)).receiver;
            } }
        ensures regions { regions_of pool.new regions.new
            ≡ (taken_request self.old.terms domain qp self.old.receiver
            (regions_of pool.old regions.old) recvs.old.items (packet d.now)).regions }
        ensures unused { recvs.new
            ≡ record recvs.old {
              items = (taken_request self.old.terms domain qp self.old.receiver
                  (regions_of pool.old regions.old) recvs.old.items (packet d.now)).unused;
            } }
        ensures done { cq.new ≡ with_done cq.old
            (taken_request self.old.terms domain qp self.old.receiver
            (regions_of pool.old regions.old) recvs.old.items (packet d.now)).done }
        ensures same { regions.new ≡ regions.old }
        ensures held { AreHeld pool.new regions.new }
        ensures others { KeepsOthers pool.old pool.new regions.old }
        ensures free { free_pages pool.new ≡ free_pages pool.old }
        ensures keyed { AreKeyed regions.new }
        ensures read { IsRead regions.new self.old.terms.mtu result }
        ensures sound { IsSound regions.new domain self.new recvs.new.items }
        ensures reserved { waiting self.new.receiver recvs.new.items + cq.old.reserved
            ≡ waiting self.old.receiver recvs.old.items + cq.new.reserved }
    {
        regions.are_keyed();
        match self.middle(d) {
            Some((spot, done)) => self.take_middle(pool, regions, spot, done, d),
            None => self.take(pool, regions, domain, recvs, cq, qp, d),
        }
    }

    /// The place of the WRITE in progress, and how many of its bytes are there, where the packet is the one that is expected
    /// next, has as many bytes as a packet may, and leaves some: most packets of a long WRITE are such. None for another.
    #[inline(always)]
    fn middle(&self, d: &Datagram<'_>) -> Option<(RegionRange, u32)>
        ensures { IfSome result (λ place. IsMiddle self.now (packet d.now) place.0 place.1) }
    {
        let Flow::Write { spot, done } = self.parts.flow else {
            return None;
        };
        let expected = self.parts.expected;
        let left = spot.length.saturating_sub(done) as usize;
        if d.opcode != WRITE_MIDDLE
            || d.psn != wire_of(expected, self.terms.peer_start)
            || d.payload.len() != self.terms.mtu as usize
            || d.payload.len() >= left
            || expected + 1 >= NUMBER_LIMIT
        {
            return None;
        }
        Some((spot, done))
    }

    /// The packet between the first and the last of the WRITE in progress that is expected next. None of the checks refuses
    /// it.
    #[inline(always)]
    fn take_middle(
        &mut self,
        pool: &mut PagePool,
        regions: &mut Regions,
        spot: RegionRange,
        done: u32,
        d: &Datagram<'_>,
    ) -> Reply
        requires middle { IsMiddle self.old (packet d.now) spot done }
        requires fits { Fits (packet d.now) }
        requires held { AreHeld pool.old regions.old }
        requires place { IsSpot regions.old spot }
        requires few { spot.length ≤ most_bytes }
        ensures taken { (domain : Name) (qp : ℕ) (recvs : work.Queue Receive)
            (cq : completions.Queue) → IsTaken (taking (around_with self.old domain qp
            (regions_of pool.old regions.old) recvs.items) (packet d.now)) result self.old
            self.new (regions_of pool.new regions.new) recvs recvs cq cq }
        ensures kept { KeepsRegions pool.old pool.new regions.old regions.new }
        ensures held { IsHeld self.old.terms self.old.receiver }
    {
        write(pool, regions, spot, done, d.payload);
        let done = done + d.payload.len() as u32;
        self.parts.expected += 1;
        self.parts.nak_sent = false;
        self.parts.flow = Flow::Write { spot, done };
        if d.ack_request {
            Reply::Ack
        } else {
            Reply::Acted
        }
    }

    /// A request by its number: ahead, before or expected.
    fn take(
        &mut self,
        pool: &mut PagePool,
        regions: &mut Regions,
        domain: Name,
        recvs: &mut RecvQueue,
        cq: &mut Cq,
        qp: u32,
        d: &Datagram<'_>,
    ) -> Reply
        requires fits { Fits (packet d.now) }
        requires request { IsTrue (is_request d.now.opcode) }
        requires held { AreHeld pool.old regions.old }
        requires sound { IsSound regions.old domain self.old recvs.old.items }
        requires reserved { waiting self.old.receiver recvs.old.items ≤ cq.old.reserved }
        ensures taken { IsTaken (taking (around_with self.old domain qp
            (regions_of pool.old regions.old) recvs.old.items) (packet d.now)) result self.old
            self.new (regions_of pool.new regions.new) recvs.old recvs.new cq.old cq.new }
        ensures kept { KeepsRegions pool.old pool.new regions.old regions.new }
        ensures held { IsHeld self.old.terms self.old.receiver }
    {
        let expected = self.parts.expected;
        let Some(n) = unwrap_near(d.psn, self.terms.peer_start, expected) else {
            return Reply::Silent(DropReason::NoRepeat);
        };
        match place(n, expected) {
            PsnOrder::Ahead => self.take_ahead(),
            PsnOrder::Before => self.take_repeat(regions, domain, d, n),
            PsnOrder::Expected => self.take_expected(pool, regions, domain, recvs, cq, qp, d),
        }
    }

    /// A request ahead of the expected one: one NAK until progress (IBA 9.7).
    #[tactic(auto, unfolding(crate::specs::Taking::ahead_taking))]
    fn take_ahead(&mut self) -> Reply
        ensures reply { (domain : Name) (qp : ℕ) (regions : List Region) (unused : List Receive)
            → result ≡ (ahead_taking (around_with self.old domain qp regions unused)).reply }
        ensures receiver { (domain : Name) (qp : ℕ) (regions : List Region) (unused : List Receive)
            → self.new
            ≡ record self.old {
              receiver = (ahead_taking
                  (around_with self.old domain qp regions unused)).receiver;
            } }
    {
        if self.parts.nak_sent {
            return Reply::Silent(DropReason::NakSent);
        }
        self.parts.nak_sent = true;
        Reply::SequenceNak
    }

    /// A repeat: a READ is executed again, an atomic has its kept reply, and a SEND or WRITE is acknowledged (IBA 9.7).
    #[tactic(auto, unfolding(crate::specs::Taking::repeated_taking))]
    fn take_repeat(&self, regions: &Regions, domain: Name, d: &Datagram<'_>, n: u64) -> Reply
        requires { n < self.now.receiver.expected }
        ensures { (pool : Pool) (qp : ℕ) (unused : List Receive)
            → let a = around_with self.now domain qp (regions_of pool regions.now) unused
            in repeated_taking a (packet d.now) n ≡ answers a result }
    {
        if is_read_request(d.opcode) {
            return self.take_reread(regions, domain, d.reth, n);
        }
        if d.atomic.is_none() {
            return Reply::DupAck;
        }
        let (number, kept) = (n, self.kept.find(n));
        kept.map_or(
            Reply::Silent(DropReason::NoRepeat),
            |old| Reply::AtomicOld { number, old },
        )
    }

    /// A repeated READ, where all its numbers are before the expected one and it is granted now.
    fn take_reread(&self, regions: &Regions, domain: Name, reth: Option<Reth>, n: u64) -> Reply
        requires { n < self.now.receiver.expected }
        ensures { (pool : Pool) (qp : ℕ) (unused : List Receive)
            → let a = around_with self.now domain qp (regions_of pool regions.now) unused
            in repeated_read_taking a reth n ≡ answers a result }
    {
        let silent = Reply::Silent(DropReason::NoRepeat);
        let Some(h) = reth else {
            return silent;
        };
        let (first, pieces) = (n, pieces_of(h.length, self.terms.mtu));
        if n + pieces > self.parts.expected {
            return silent;
        }
        let read = Rights::REMOTE_READ;
        match regions.check_remote(domain, h.rkey, h.address, h.length, read) {
            Some(spot) => Reply::ReadBytes {
                spot,
                first,
                pieces,
            },
            None => silent,
        }
    }

    /// The expected request: the checks in their order.
    fn take_expected(
        &mut self,
        pool: &mut PagePool,
        regions: &mut Regions,
        domain: Name,
        recvs: &mut RecvQueue,
        cq: &mut Cq,
        qp: u32,
        d: &Datagram<'_>,
    ) -> Reply
        requires fits { Fits (packet d.now) }
        requires request { IsTrue (is_request d.now.opcode) }
        requires held { AreHeld pool.old regions.old }
        requires sound { IsSound regions.old domain self.old recvs.old.items }
        requires reserved { waiting self.old.receiver recvs.old.items ≤ cq.old.reserved }
        ensures taken { IsTaken (expected_taking
            (around_with self.old domain qp (regions_of pool.old regions.old) recvs.old.items)
            (packet d.now) self.old.receiver.expected) result self.old self.new
            (regions_of pool.new regions.new) recvs.old recvs.new cq.old cq.new }
        ensures kept { KeepsRegions pool.old pool.new regions.old regions.new }
    {
        if self.parts.expected + self.span(d) >= NUMBER_LIMIT {
            return Reply::Silent(DropReason::NoRepeat);
        }
        if self.is_invalid(d) {
            return Reply::Refused(RefusalReason::Invalid);
        }
        let Some(spot) = places::target(regions, domain, d) else {
            return Reply::Refused(RefusalReason::Access);
        };
        if is_not_ready(recvs, d) {
            return Reply::NotReady;
        }
        self.act(pool, regions, domain, recvs, cq, qp, spot, d)
    }

    /// The request acts on the place that it is granted.
    fn act(
        &mut self,
        pool: &mut PagePool,
        regions: &mut Regions,
        domain: Name,
        recvs: &mut RecvQueue,
        cq: &mut Cq,
        qp: u32,
        spot: RegionRange,
        d: &Datagram<'_>,
    ) -> Reply
        requires limit { self.old.receiver.expected
            + words.span_of_packet (packet d.now) self.old.terms.mtu d.now.reth < number_limit }
        requires valid { words.is_invalid (link_with self.old) (packet d.now) ≡ false }
        requires ready { words.is_not_ready (end_of
            (around_with self.old domain qp (regions_of pool.old regions.old) recvs.old.items))
            (packet d.now) ≡ false }
        requires target { IsTarget regions.old domain (packet d.now) spot }
        requires fits { Fits (packet d.now) }
        requires request { IsTrue (is_request d.now.opcode) }
        requires held { AreHeld pool.old regions.old }
        requires sound { IsSound regions.old domain self.old recvs.old.items }
        requires reserved { waiting self.old.receiver recvs.old.items ≤ cq.old.reserved }
        ensures taken { (r : Region) → target_in (regions_of pool.old regions.old) domain (packet d.now) ≡ Some r
            → IsTaken (granted_taking (around_with self.old domain qp (regions_of pool.old regions.old) recvs.old.items) (packet d.now) self.old.receiver.expected (Some r)) result self.old self.new (regions_of pool.new regions.new) recvs.old recvs.new cq.old cq.new }
        ensures kept { KeepsRegions pool.old pool.new regions.old regions.new }
    {
        if is_send(d.opcode) {
            return self.take_send(pool, regions, domain, recvs, cq, qp, d);
        }
        if is_write(d.opcode) {
            let (spot, before) = self.write_place(spot, d.reth);
            return self.take_write(pool, regions, recvs, cq, qp, spot, before, d);
        }
        let Some(h) = d.atomic else {
            return self.take_read(spot, d);
        };
        self.take_atomic(pool, regions, spot, &h, d)
    }

    /// Where a WRITE goes on: where its message is, or else where its RETH begins.
    fn write_place(&self, spot: RegionRange, reth: Option<Reth>) -> (RegionRange, u32)
        ensures { result ≡ place_next spot reth self.now.receiver.progress }
    {
        match (reth, self.parts.flow) {
            (None, Flow::Write { spot, done }) => (spot, done),
            _ => (spot, 0),
        }
    }
}
