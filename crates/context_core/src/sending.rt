//! What an end sends by itself.

ghost use Rattle.std.specs.Prelude.{ℕ, ◌≡◌, ◌+◌, ◌-◌, ◌<◌, ◌≤◌, ◌^◌, ◌++◌, ◌⊎◌, [], IfOk, IfSome, IsSome, None, OnErr, Some, is_some, true, length, map, min, slice_get, vec_capacity};
ghost use Rattle.std.specs.Option.{option_to_list};
ghost use Rattle.std.specs.Result.{result_err};
ghost use Rattle.rdma_types.specs.Causes.{first_cause};
ghost use Rattle.rdma_types.specs.declared.names.Name.{Name};
ghost use Rattle.page_pool.specs.Held.{HoldsPayload, payload_bytes};
ghost use Rattle.page_pool.specs.Pool.{Pool};
ghost use Rattle.protocol.specs.Bytes.{bytes_at};
ghost use Rattle.protocol.specs.DeviceStep.{gives, transmits, with_context};
ghost use Rattle.protocol.specs.Memory.{pages_of_context};
ghost use Rattle.protocol.specs.Refusals.{connected_causes};
ghost use Rattle.protocol.specs.State.{Device, end_at};
ghost use Rattle.endpoint_core.specs.declared.answers.EndSend.TheVariants as send;
ghost use Rattle.endpoint_core.specs.declared.end.EndLink.{EndLink};
ghost use Rattle.endpoint_core.specs.Answers.{row_in};
ghost use Rattle.endpoint_core.specs.Ends.{link_in, untold_by};
ghost use Rattle.requester.specs.declared.answers.Transmit.TheVariants as transmission;
ghost use Rattle.context_core.specs.Context.{IsContext, context_in, lists_of};
ghost use Rattle.context_core.specs.Faults.{refusal_of};
ghost use Rattle.context_core.specs.Links.{IsConnectedAt};
ghost use Rattle.context_core.specs.Rooms.{HasRoomFor};
ghost use Rattle.context_core.specs.Sending.{IsInRange, row_answer, row_sent, send_answer};
ghost use Rattle.context_core.specs.Transmitting.{IsSending, IsRoute};

use crate::datagrams::{moving, request};
use crate::rooms::DatagramRoom;
use crate::{ContextFault, ContextState, Draft, EndSlot, ends};
use end_queues::work_queues::QueuedRequest;
use endpoint_core::{EndSend, Endpoint};
use indexmap::IndexMap;
use page_pool::{PagePool, Payload};
use protocol::ResumeBody;
use rdma_types::{Address, Answer, Items, Name, Sent, Shape};
use requester::Transmit;
use roce_headers::opcodes::RESUME;
use std::alloc::{AllocError, Global};
use transport::psn_math::wire_of;
use transport::segmenter::PacketHead;

/// More bytes than a datagram has besides its payload.
pub const MOST_HEADERS: usize = 92;

/// An answer, and the datagrams that are sent.
#[derive(Drop)]
pub struct Answered {
    pub answer: Answer,
    pub sent: Items<Sent>,
}

/// What a transmission did: a datagram was sent, or why none was.
#[derive(Clone, Copy, Debug, PartialEq, Eq)]
pub enum SendRow {
    Sent,
    /// Every posted packet is sent.
    Idle,
    /// Too many request packets are unacknowledged.
    WindowFull,
    /// Too many Reads and atomics are unacknowledged.
    ReadsFull,
    /// The next request waits for earlier Reads and atomics.
    Fenced,
    /// The end is Paused, in Error, or waits for the RNR timer.
    Waiting,
}

impl SendRow {
    /// The answer that tells it. The number of the datagram is 0, as from a device.
    #[inline(always)]
    pub fn answer(self) -> Answer
        ensures { result ≡ send_answer self }
    {
        match self {
            SendRow::Sent => Answer::Sent { first: 0 },
            SendRow::Idle => Answer::Idle,
            SendRow::WindowFull => Answer::WindowFull,
            SendRow::ReadsFull => Answer::ReadsFull,
            SendRow::Fenced => Answer::Fenced,
            SendRow::Waiting => Answer::Waiting,
        }
    }
}

/// Where the requests of a connected end go.
#[derive(Clone, Copy)]
struct Route {
    peer: u32,
    to: Address,
    mtu: u32,
    start: u32,
}

/// The way to the partner of the connected end at a place.
fn way_at(ends: &IndexMap<Name, EndSlot>, place: usize) -> Route
    requires there { place < length ends.now.entries }
    requires linked { IfSome (slice_get ends.now.entries place) (λ e. IsSome e.1.endpoint.link) }
    ensures { IfSome (slice_get ends.now.entries place)
        (λ e. IfSome e.1.endpoint.link (IsRoute result)) }
{
    let (_, slot) = ends.get_index(place).unwrap();
    let Some(link) = &slot.endpoint.link else {
        unreachable!()
    };
    let _numbers = link.requester.parts();
    Route {
        peer: link.peer,
        to: link.moves.partner,
        mtu: link.terms.mtu,
        start: link.terms.own_start,
    }
}

/// The fields of a request are in the ranges of their types. It does nothing else than say so.
fn are_in_range(_shape: Shape)
    ensures { IsInRange _shape }
{}

/// What a transmission did.
fn row_of(send: &EndSend) -> SendRow
    ensures { (pool : Pool) (l : EndLink)
        → send_answer result ≡ row_answer (row_in pool (Some l) send.now) }
{
    match send {
        EndSend::Resume { .. } => SendRow::Sent,
        EndSend::Transmit(transmit) => match transmit {
            Transmit::Sent { .. } => SendRow::Sent,
            Transmit::Idle => SendRow::Idle,
            Transmit::WindowFull => SendRow::WindowFull,
            Transmit::ReadsFull => SendRow::ReadsFull,
            Transmit::Fenced => SendRow::Fenced,
            Transmit::Waiting => SendRow::Waiting,
        },
    }
}

/// A request that is not told.
fn posted_at(endpoint: &Endpoint, index: usize) -> &QueuedRequest
    requires { index < length (untold_by endpoint.now.link) }
    ensures { slice_get (untold_by endpoint.now.link) index ≡ Some result.now }
{
    let Some(link) = &endpoint.link else {
        unreachable!()
    };
    link.requester.posted(index).unwrap()
}

/// Where the bytes of a packet begin in those of its request, and how many the request has there.
fn span_in(payload: &Payload, head: &PacketHead) -> (u32, u32)
    ensures off { result.0 ≡ min head.now.off payload.now.length }
    ensures count { result.1 ≡ min head.now.length (payload.now.length - result.0) }
{
    let off = head.off.min(payload.length);
    (off, head.length.min(payload.length - off))
}

/// The bytes of a packet where they lie, where that is in one page.
fn piece_in<'a>(pool: &'a PagePool, payload: &Payload, head: &PacketHead) -> Option<&'a [u8]>
    requires held { HoldsPayload pool.now payload.now }
    ensures { IfSome result (λ bytes. bytes.now
        ≡ bytes_at head.now.off head.now.length (payload_bytes pool.now payload.now)) }
{
    let (off, count) = span_in(payload, head);
    if count == 0 {
        return None;
    }
    let piece = pool.piece(&payload.list, u64::from(payload.first) + u64::from(off));
    if piece.len() < count as usize {
        return None;
    }
    Some(&piece[..count as usize])
}

/// The bytes of a packet, as many as the request has there, read into this memory.
fn read_in<'a>(
    pool: &PagePool,
    payload: &Payload,
    head: &PacketHead,
    memory: &'a mut [u8],
) -> &'a [u8]
    requires held { HoldsPayload pool.now payload.now }
    requires room { length (bytes_at head.now.off head.now.length
        (payload_bytes pool.now payload.now)) ≤ length memory.old }
    ensures { result.now ≡ bytes_at head.now.off head.now.length
        (payload_bytes pool.now payload.now) }
{
    let (off, count) = span_in(payload, head);
    let at = u64::from(payload.first) + u64::from(off);
    let out = &mut memory[..count as usize];
    pool.read(&payload.list, at, out);
    out
}

/// The bytes of a packet, as many as the request has there: where they lie, if that is in one page, and else in this
/// memory.
fn bytes_for<'a>(
    pool: &'a PagePool,
    payload: &Payload,
    head: &PacketHead,
    memory: &'a mut [u8],
) -> &'a [u8]
    requires held { HoldsPayload pool.now payload.now }
    requires room { length (bytes_at head.now.off head.now.length
        (payload_bytes pool.now payload.now)) ≤ length memory.old }
    ensures { result.now ≡ bytes_at head.now.off head.now.length
        (payload_bytes pool.now payload.now) }
{
    match piece_in(pool, payload, head) {
        Some(bytes) => bytes,
        None => read_in(pool, payload, head, memory),
    }
}

/// A packet of a request, with the bytes that the request took, in this memory. It takes no other.
#[inline(always)]
fn put_request(
    pool: &PagePool,
    endpoint: &Endpoint,
    way: &Route,
    page: &mut [u8],
    room: &mut DatagramRoom,
    sent: &mut Option<Sent>,
    number: u64,
    index: usize,
    head: &PacketHead,
)
    requires sending { (l : EndLink) × IsSending pool.now endpoint.now way.now
        (send.Transmit (transmission.Sent number index head.now)) l }
    requires payload { way.now.mtu ≤ length page.old }
    requires room { HasRoomFor room.old (way.now.mtu + 92) }
    ensures { (l : EndLink) (own : Address) → IsSending pool.now endpoint.now way.now (send.Transmit (transmission.Sent number index head.now)) l
        → option_to_list sent.new ≡ row_sent (link_in pool.now l) own (row_in pool.now (Some l) (send.Transmit (transmission.Sent number index head.now))) }
{
    let posted = posted_at(endpoint, index);
    are_in_range(posted.request.shape);
    let psn = wire_of(number, way.start);
    let payload = bytes_for(pool, &posted.payload, head, page);
    let d = request(head, &posted.request.shape, way.peer, psn, payload);
    let bytes = room.write(&d);
    *sent = Some(Sent {
        to: way.to,
        number: Some(number),
        bytes,
    });
}

/// A RESUME, in this memory. It takes no other.
fn put_resume(
    way: &Route,
    own: Address,
    room: &mut DatagramRoom,
    sent: &mut Option<Sent>,
    count: u32,
)
    requires room { HasRoomFor room.old (way.now.mtu + 92) }
    ensures { (pool : Pool) (e : Endpoint) (l : EndLink) → IsSending pool e way.now (send.Resume count) l
        → option_to_list sent.new ≡ row_sent (link_in pool l) own (row_in pool (Some l) (send.Resume count)) }
{
    let address = own;
    let d = moving(RESUME, way.peer, ResumeBody { count, address });
    let bytes = room.write(&d);
    *sent = Some(Sent {
        to: way.to,
        number: None,
        bytes,
    });
}

/// What a transmission sends, in this memory. It takes no other, and uses none where nothing is sent.
#[inline(always)]
fn put_sent(
    pool: &PagePool,
    endpoint: &Endpoint,
    way: &Route,
    own: Address,
    page: &mut [u8],
    room: &mut DatagramRoom,
    sent: &mut Option<Sent>,
    send: EndSend,
)
    requires sending { (l : EndLink) × IsSending pool.now endpoint.now way.now send l }
    requires payload { way.now.mtu ≤ length page.old }
    requires room { HasRoomFor room.old (way.now.mtu + 92) }
    requires none { sent.old ≡ None }
    ensures { (l : EndLink) → IsSending pool.now endpoint.now way.now send l
        → option_to_list sent.new ≡ row_sent (link_in pool.now l) own (row_in pool.now (Some l) send) }
{
    match send {
        EndSend::Resume { count } => put_resume(way, own, room, sent, count),
        EndSend::Transmit(transmit) => match transmit {
            Transmit::Sent {
                number,
                index,
                head,
            } => put_request(pool, endpoint, way, page, room, sent, number, index, &head),
            Transmit::Idle
            | Transmit::WindowFull
            | Transmit::ReadsFull
            | Transmit::Fenced
            | Transmit::Waiting => (),
        },
    }
}

impl ContextState {
    /// Sends the next packet of the connected end at a place, where one may be sent. It is in the draft then, and what
    /// was there before is gone. A RESUME tells the address of the device, `own`. Errors: `AllocError` when out of memory;
    /// nothing has changed then, and nothing is in the draft.
    pub fn transmit_at(
        &mut self,
        alloc: Global,
        draft: &mut Draft,
        pool: &PagePool,
        place: usize,
        own: Address,
    ) -> Result<SendRow, AllocError>
        requires is { IsContext pool.now self.old }
        requires at { (n : Name) × (name : Name)
            × IsConnectedAt (context_in pool.now n self.old) name place }
        ensures sent { (n name : Name) (d : Device) → IsConnectedAt (context_in pool.now n self.old) name place → d.address ≡ own → with_context d (context_in pool.now n self.old) ≡ d
            → IfOk result (λ row. transmits d (context_in pool.now n self.old) (end_at (context_in pool.now n self.old) name)
            ≡ gives (with_context d (context_in pool.now n self.new)) (send_answer row) draft.new) }
        ensures bounded { length draft.new ≤ 1 }
        ensures is { IsContext pool.now self.new }
        ensures lists { lists_of self.new ≡ lists_of self.old }
        ensures pages { (n : Name) → pages_of_context (context_in pool.now n self.new)
            ≡ pages_of_context (context_in pool.now n self.old) }
        ensures numbers { (n : Name) → map (λ e. e.number) (context_in pool.now n self.new).ends
            ≡ map (λ e. e.number) (context_in pool.now n self.old).ends }
        ensures err { OnErr result (self.new ≡ self.old) }
        ensures err_draft { OnErr result (draft.new ≡ []) }
    {
        draft.clear();
        let way = way_at(&self.ends, place);
        let buffers = &mut draft.buffers;
        buffers.make_room(alloc, way.mtu as usize + MOST_HEADERS)?;
        let slot = self.ends.get_index_mut(place).unwrap();
        let send = slot.endpoint.transmit();
        let row = row_of(&send);
        let page = &mut buffers.payload[..];
        let room = &mut buffers.room;
        let sent = &mut draft.sent;
        put_sent(pool, &slot.endpoint, &way, own, page, room, sent, send);
        Ok(row)
    }

    /// Sends the next packet of an end, where one may be sent. A RESUME tells the address of the device, `own`. Errors:
    /// refused with `NoSuch` where no queue pair has the name, and else with `BadState` where it is in Init; or
    /// `OutOfMemory`. Nothing has changed then.
    pub fn transmit(
        &mut self,
        alloc: Global,
        draft: &mut Draft,
        pool: &PagePool,
        name: Name,
        own: Address,
    ) -> Result<Answered, ContextFault>
        requires is { IsContext pool.now self.old }
        ensures refused { (n : Name) → refusal_of result
            ≡ first_cause (connected_causes (context_in pool.now n self.old) name) }
        ensures sent { (n : Name) (d : Device) → d.address ≡ own → with_context d (context_in pool.now n self.old) ≡ d
            → IfOk result (λ a. transmits d (context_in pool.now n self.old) (end_at (context_in pool.now n self.old) name)
            ≡ gives (with_context d (context_in pool.now n self.new)) a.answer a.sent) }
        ensures is { IsContext pool.now self.new }
        ensures lists { lists_of self.new ≡ lists_of self.old }
        ensures pages { (n : Name) → pages_of_context (context_in pool.now n self.new)
            ≡ pages_of_context (context_in pool.now n self.old) }
        ensures numbers { (n : Name) → map (λ e. e.number) (context_in pool.now n self.new).ends
            ≡ map (λ e. e.number) (context_in pool.now n self.old).ends }
        ensures err { OnErr result (self.new ≡ self.old) }
    {
        let place = ends::connected(&self.ends, name)?;
        let list = draft.buffers.take_list(alloc, 1)?;
        let row = self.transmit_at(alloc, draft, pool, place, own)?;
        let sent = draft.take_all(list);
        let answer = row.answer();
        Ok(Answered { answer, sent })
    }
}
