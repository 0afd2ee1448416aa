//! What an expected packet does where it is valid and its place is granted.

ghost use Rattle.std.specs.Prelude.{◌≡◌, ℕ, ◌+◌, ◌++◌, ◌∷◌, [], ◌<◌, ◌≤◌, ◌&&◌, List, length, drop, is_some, not, false, true, if◌then◌else◌};
ghost use Rattle.rdma_types.specs.Limits.{number_limit};
ghost use Rattle.rdma_types.specs.Memory.{word_bytes, word_of};
ghost use Rattle.rdma_types.specs.Spans.{pieces};
ghost use Rattle.rdma_types.specs.declared.requests.WcKind.TheVariants as wc;
ghost use Rattle.rdma_types.specs.declared.requests.WcStatus.TheVariants as status;
ghost use Rattle.rdma_types.specs.declared.names.Name.{Name};
ghost use Rattle.memory_keys.specs.Regions.{AreHeld, AreKeyed, IsSpot, regions_of, spot_bytes};
ghost use Rattle.protocol.specs.declared.images.KeptReply.{KeptReply};
ghost use Rattle.protocol.specs.EndWords.{done_receive, failed_receive, in_use_by};
ghost use Rattle.protocol.specs.Memory.{written};
ghost use Rattle.protocol.specs.Responder as words;
ghost use Rattle.protocol.specs.State.{NoMessage, InSend};
ghost use Rattle.roce_headers.specs.Packets.{packet};
ghost use Rattle.responder.specs.Kinds.{part_in};
ghost use Rattle.responder.specs.Receiving.{IsHeld, progress_of, receiver_of};
ghost use Rattle.responder.specs.Sound.{IsPlace};
ghost use Rattle.responder.specs.Taken.{IsTaken, KeepsRegions};
ghost use Rattle.responder.specs.Taking.{acted, around_with, context_of, immediate_done, link_with, place_at, sending, with_done, write_taking};

use crate::kinds::{Part, is_read_request};
use crate::places::{exchange, land, write};
use crate::{Flow, RefusalReason, Reply, Responder, ResponderParts, checks};
use end_queues::completion_queue::Cq;
use end_queues::work_queues::RecvQueue;
use memory_keys::{RegionRange, Regions};
use page_pool::PagePool;
use rdma_types::{Completion, Name, Receive, WcKind, WcStatus};
use roce_headers::{AtomicEth, Datagram};
use transport::psn_math::WIRE_NUMBERS;
use transport::segmenter::pieces_of;

/// The completion of a receive with success, as many bytes as its message has and the message's immediate.
#[tactic(auto, unfolding(rdma_types::specs::Kinds::receive_done))]
fn done(qp: u32, receive: &Receive, kind: WcKind, length: u32, imm: Option<u32>) -> Completion
    ensures { result ≡ done_receive qp kind length imm receive.now }
{
    Completion {
        qp,
        id: receive.id,
        kind,
        status: WcStatus::Success,
        length,
        imm,
    }
}

/// The completion of a receive that is too short for its message.
#[tactic(auto, unfolding(rdma_types::specs::Kinds::receive_done))]
fn too_short(qp: u32, receive: &Receive) -> Completion
    ensures { result ≡ failed_receive qp status.LocalLength receive.now }
{
    Completion {
        qp,
        id: receive.id,
        kind: WcKind::Recv,
        status: WcStatus::LocalLength,
        length: 0,
        imm: None,
    }
}

/// The answer to a packet that acted: an acknowledgement for a Last or Only, and where one is asked for.
fn acted(d: &Datagram<'_>) -> Reply
    ensures { result ≡ acted (packet d.now) }
{
    if Part::of(d.opcode).finishes() || d.ack_request {
        Reply::Ack
    } else {
        Reply::Acted
    }
}

/// How many messages a packet finishes: a First or Middle none.
fn finished(part: Part) -> u32
    ensures { result ≡ (if words.is_part (part_in part)
        && not (words.finishes (part_in part)) then 0 else 1) }
{
    if part.is_part() && !part.finishes() {
        0
    } else {
        1
    }
}

/// A message with immediate uses the oldest receive.
fn use_receive(recvs: &mut RecvQueue, cq: &mut Cq, qp: u32, size: u32, imm: Option<u32>)
    requires there { is_some imm ≡ true → 0 < length recvs.old.items }
    requires reserved { is_some imm ≡ true → 0 < cq.old.reserved }
    ensures unused { recvs.new ≡ record recvs.old {
      items = if is_some imm
          then drop 1 recvs.old.items else recvs.old.items;
    } }
    ensures done { cq.new
        ≡ with_done cq.old (immediate_done qp size imm (words.front recvs.old.items)) }
{
    if imm.is_none() {
        return;
    }
    let receive = recvs.drop_front().unwrap();
    cq.push(done(qp, &receive, WcKind::RecvImm, size, imm));
}

impl Responder {
    /// How many numbers a packet takes: a READ request as many as it has responses.
    pub(crate) fn span(&self, d: &Datagram<'_>) -> u64
        ensures span { result ≡ words.span_of_packet (packet d.now) self.now.terms.mtu d.now.reth }
        ensures bounded { result ≤ 4294967296 }
        ensures positive { 0 < result }
        ensures held { IsHeld self.now.terms self.now.receiver }
    {
        match d.reth {
            Some(reth) if is_read_request(d.opcode) => pieces_of(reth.length, self.terms.mtu),
            _ => 1,
        }
    }

    /// The parts once the packet is executed, with this message in progress.
    #[tactic(auto, unfolding(protocol::specs::Responder::executed, protocol::specs::EndWords::with_receiver))]
    fn executed(&self, d: &Datagram<'_>, flow: Flow) -> ResponderParts
        requires { self.now.receiver.expected + words.span_of_packet
            (packet d.now) self.now.terms.mtu d.now.reth < number_limit }
        ensures parts { (kept : List KeptReply)
            → receiver_of result kept ≡ record
            (words.executed (link_with self.now) (packet d.now)).receiver
            { progress = progress_of flow; kept = kept } }
        ensures held { IsHeld self.now.terms (receiver_of result self.now.receiver.kept) }
        ensures expected_grows { self.now.receiver.expected < result.expected }
    {
        let part = Part::of(d.opcode);
        ResponderParts {
            expected: self.parts.expected + self.span(d),
            nak_sent: false,
            msn: (self.parts.msn + finished(part)) % WIRE_NUMBERS,
            flow,
        }
    }

    /// The packet is executed, and this message is in progress.
    #[tactic(auto, unfolding(protocol::specs::Responder::executed, protocol::specs::EndWords::with_receiver))]
    fn execute(&mut self, d: &Datagram<'_>, flow: Flow)
        requires { self.old.receiver.expected + words.span_of_packet
            (packet d.now) self.old.terms.mtu d.now.reth < number_limit }
        ensures { self.new
            ≡ record self.old {
              receiver = record
                  (words.executed (link_with self.old) (packet d.now)).receiver
                  { progress = progress_of flow };
            } }
    {
        self.parts = self.executed(d, flow);
    }

    /// The receive that a SEND uses, and how many bytes lie there: that in use, or the oldest unused one, which is used.
    fn receive(&self, recvs: &mut RecvQueue) -> Receive
        requires { 0 < length (in_use_by self.now.receiver.progress ++ recvs.old.items) }
        ensures receive { result ≡ words.front
            (in_use_by self.now.receiver.progress ++ recvs.old.items) }
        ensures unused { recvs.new
            ≡ record recvs.old {
              items = drop 1
                  (in_use_by self.now.receiver.progress ++ recvs.old.items);
            } }
    {
        match self.parts.flow {
            Flow::Send { receive, .. } => receive,
            Flow::Idle | Flow::Write { .. } => recvs.drop_front().unwrap(),
        }
    }

    /// A SEND: check 4, and what it does where it fits.
    #[tactic(auto, unfolding(protocol::specs::Responder::executed, protocol::specs::EndWords::with_receiver, crate::specs::Taking::too_long_taking, crate::specs::Taking::send_taking, protocol::specs::Responder::receive_of))]
    pub(crate) fn take_send(
        &mut self,
        pool: &mut PagePool,
        regions: &mut Regions,
        domain: Name,
        recvs: &mut RecvQueue,
        cq: &mut Cq,
        qp: u32,
        d: &Datagram<'_>,
    ) -> Reply
        requires limit { self.old.receiver.expected
            + words.span_of_packet (packet d.now) self.old.terms.mtu d.now.reth < number_limit }
        requires held { AreHeld pool.old regions.old }
        requires there { 0 < length (in_use_by self.old.receiver.progress ++ recvs.old.items) }
        requires place { IsPlace regions.old domain
            (words.front (in_use_by self.old.receiver.progress ++ recvs.old.items)) }
        requires reserved { 0 < cq.old.reserved }
        ensures taken { IsTaken (sending (around_with self.old domain qp
            (regions_of pool.old regions.old) recvs.old.items) (packet d.now)) result self.old
            self.new (regions_of pool.new regions.new) recvs.old recvs.new cq.old cq.new }
        ensures kept { KeepsRegions pool.old pool.new regions.old regions.new }
    {
        let receive = self.receive(recvs);
        let before = checks::bytes_before(None, &self.parts.flow);
        let size = u64::from(before) + d.payload.len() as u64;
        if u64::from(receive.length) < size {
            cq.push(too_short(qp, &receive));
            self.parts.flow = Flow::Idle;
            return Reply::Refused(RefusalReason::Length);
        }
        land(pool, regions, domain, &receive, before, d.payload);
        self.go_on(cq, qp, receive, size as u32, d);
        acted(d)
    }

    /// So many bytes of a SEND are done; its last packet completes its receive.
    #[tactic(auto, unfolding(protocol::specs::Responder::executed, protocol::specs::EndWords::with_receiver))]
    fn go_on(&mut self, cq: &mut Cq, qp: u32, receive: Receive, size: u32, d: &Datagram<'_>)
        requires limit { self.old.receiver.expected
            + words.span_of_packet (packet d.now) self.old.terms.mtu d.now.reth < number_limit }
        requires reserved { 0 < cq.old.reserved }
        ensures receiver { self.new
            ≡ record self.old {
              receiver = record
                  (words.executed (link_with self.old) (packet d.now)).receiver {
                    progress = if words.finishes (words.part_of d.now.opcode) then NoMessage
                        else InSend size receive;
                  };
            } }
        ensures done { cq.new ≡ with_done cq.old (if words.finishes (words.part_of d.now.opcode)
            then done_receive qp wc.Recv size d.now.imm receive ∷ [] else []) }
    {
        if !Part::of(d.opcode).finishes() {
            let done = size;
            self.execute(d, Flow::Send { done, receive });
            return;
        }
        cq.push(done(qp, &receive, WcKind::Recv, size, d.imm));
        self.execute(d, Flow::Idle);
    }

    /// A WRITE into this place, with so many bytes done.
    #[tactic(auto, unfolding(protocol::specs::Responder::executed, protocol::specs::EndWords::with_receiver, crate::specs::Taking::write_taking))]
    pub(crate) fn take_write(
        &mut self,
        pool: &mut PagePool,
        regions: &mut Regions,
        recvs: &mut RecvQueue,
        cq: &mut Cq,
        qp: u32,
        spot: RegionRange,
        before: u32,
        d: &Datagram<'_>,
    ) -> Reply
        requires limit { self.old.receiver.expected
            + words.span_of_packet (packet d.now) self.old.terms.mtu d.now.reth < number_limit }
        requires held { AreHeld pool.old regions.old }
        requires place { IsSpot regions.old spot }
        requires fits { before + length d.now.payload.now ≤ spot.length }
        requires there { is_some d.now.imm ≡ true → 0 < length recvs.old.items }
        requires reserved { is_some d.now.imm ≡ true → 0 < cq.old.reserved }
        ensures taken { (domain : Name)
            → IsTaken (write_taking (around_with self.old domain qp
            (regions_of pool.old regions.old) recvs.old.items) (packet d.now)
            (place_at spot before)) result self.old self.new
            (regions_of pool.new regions.new) recvs.old recvs.new cq.old cq.new }
        ensures kept { KeepsRegions pool.old pool.new regions.old regions.new }
    {
        write(pool, regions, spot, before, d.payload);
        if Part::of(d.opcode).finishes() {
            use_receive(recvs, cq, qp, spot.length, d.imm);
            self.execute(d, Flow::Idle);
        } else {
            let done = before + d.payload.len() as u32;
            self.execute(d, Flow::Write { spot, done });
        }
        acted(d)
    }

    /// A READ of a granted place.
    #[tactic(auto, unfolding(protocol::specs::Responder::executed, protocol::specs::EndWords::with_receiver))]
    pub(crate) fn take_read(&mut self, spot: RegionRange, d: &Datagram<'_>) -> Reply
        requires { self.old.receiver.expected + words.span_of_packet
            (packet d.now) self.old.terms.mtu d.now.reth < number_limit }
        ensures reply { result ≡ Reply.ReadBytes spot self.old.receiver.expected
            (pieces spot.length self.old.terms.mtu) }
        ensures receiver { self.new
            ≡ record self.old {
              receiver = (words.executed (link_with self.old)
                  (packet d.now)).receiver;
            } }
    {
        let first = self.parts.expected;
        let pieces = pieces_of(spot.length, self.terms.mtu);
        self.execute(d, self.parts.flow);
        Reply::ReadBytes {
            spot,
            first,
            pieces,
        }
    }

    /// An atomic on a granted word.
    #[tactic(auto, unfolding(protocol::specs::Responder::executed, protocol::specs::EndWords::with_receiver))]
    pub(crate) fn take_atomic(
        &mut self,
        pool: &mut PagePool,
        regions: &mut Regions,
        spot: RegionRange,
        h: &AtomicEth,
        d: &Datagram<'_>,
    ) -> Reply
        requires limit { self.old.receiver.expected
            + words.span_of_packet (packet d.now) self.old.terms.mtu d.now.reth < number_limit }
        requires held { AreHeld pool.old regions.old }
        requires place { IsSpot regions.old spot }
        requires length { spot.length ≡ 8 }
        ensures reply { let old = word_of (spot_bytes pool.old regions.old spot)
            in result ≡ Reply.AtomicOld self.old.receiver.expected old }
        ensures receiver { let old = word_of (spot_bytes pool.old regions.old spot)
            in self.new
            ≡ record self.old {
              receiver = record
                  (words.executed (link_with self.old) (packet d.now)).receiver {
                    kept = words.keeping self.old.receiver.kept
                        (record { number = self.old.receiver.expected; old = old });
                  };
            } }
        ensures regions { let old = word_of (spot_bytes pool.old regions.old spot)
            in regions_of pool.new regions.new
            ≡ (written (context_of (regions_of pool.old regions.old)) spot.region spot.off
            (word_bytes (words.atomic_value d.now.opcode h.now old))).regions }
        ensures keyed { AreKeyed regions.old }
        ensures kept { KeepsRegions pool.old pool.new regions.old regions.new }
    {
        let number = self.parts.expected;
        let parts = self.executed(d, self.parts.flow);
        let old = exchange(pool, regions, spot, d.opcode, h);
        self.kept.put(number, old);
        self.parts = parts;
        Reply::AtomicOld { number, old }
    }
}
