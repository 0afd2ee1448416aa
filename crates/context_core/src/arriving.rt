//! Datagrams taken.

ghost use Rattle.std.specs.Prelude.{ℕ, ◌≡◌, ◌+◌, ◌*◌, ◌<◌, ◌≤◌, ◌^◌, ◌++◌, ◌⊎◌, List, [], length, None, Some, IfNone, IfOk, IfSome, IsOk, OnErr, OnOk, false, true, is_none, is_some, map, reverse, slice_get, vec_capacity};
ghost use Rattle.std.specs.Option.{option_map_or, option_to_list};
ghost use Rattle.rdma_types.specs.Limits.{AreTerms};
ghost use Rattle.rdma_types.specs.Lists.{at};
ghost use Rattle.rdma_types.specs.Objects.{Region, no_region};
ghost use Rattle.rdma_types.specs.Memory.{cut};
ghost use Rattle.rdma_types.specs.Spans.{piece_length, pieces};
ghost use Rattle.page_pool.specs.Pool.{Pool};
ghost use Rattle.memory_keys.specs.declared.RegisteredRegion.{RegisteredRegion};
ghost use Rattle.memory_keys.specs.Regions.{AreHeld, IsSpot, part_of, regions_of, spot_bytes};
ghost use Rattle.protocol.specs.EndStep.{takes};
ghost use Rattle.protocol.specs.Responder.{read_piece, read_response};
ghost use Rattle.protocol.specs.State.{End, Link};
ghost use Rattle.protocol.specs.Wire.{Fits, wire_of};
ghost use Rattle.rdma_types.specs.declared.names.Name.{Name};
ghost use Rattle.roce_headers.specs.Packets.{packet};
ghost use Rattle.endpoint_core.specs.declared.answers.DueRead.{DueRead};
ghost use Rattle.endpoint_core.specs.Answers.{IsReply, sent_by};
ghost use Rattle.endpoint_core.specs.Due.{due_in, responses, telling};
ghost use Rattle.endpoint_core.specs.Ends.{link_in};
ghost use Rattle.context_core.specs.Arriving.{HasNoBytes, HasRoom, IsRoomFor, IsSentFor, aeth_at, may_answer, opcode_at};
ghost use Rattle.context_core.specs.Context.{IsContext, Moves, context_in};
ghost use Rattle.context_core.specs.Links.{link_at};
ghost use Rattle.context_core.specs.Rooms.{HasRoomFor};
ghost use Rattle.context_core.specs.Sending.{addressed};

use crate::datagrams::{answer, moving, written};
use crate::rooms::DatagramRoom;
use crate::sending::MOST_HEADERS;
use crate::{Buffers, ContextState, Draft};
use endpoint_core::{DueRead, EndLink, EndMemory, EndReply, Endpoint};
use memory_keys::{RegionRange, Regions};
use page_pool::PagePool;
use protocol::{Aeth, ResumeBody, Syndrome};
use rdma_types::{Address, ArrivalEffect, Items, Name, Sent};
use roce_headers::Datagram;
use roce_headers::opcodes::{
    ACKNOWLEDGE, ATOMIC_ACKNOWLEDGE, READ_FIRST, READ_LAST, READ_MIDDLE, READ_ONLY, RESUME,
    RESUME_ACK, is_request,
};
use std::alloc::{AllocError, Global};
use transport::segmenter::{piece_at, pieces_of};

/// What a datagram did, and what is sent for it.
#[derive(Drop)]
pub struct ArrivalOutcome {
    pub took: ArrivalEffect,
    pub sent: Items<Sent>,
}

/// The opcode of READ response `k` of so many, which is a First, Middle, Last or Only.
fn response_opcode(k: u64, count: u64) -> u8
    requires { k < count }
    ensures { result ≡ opcode_at k count }
{
    if count == 1 {
        READ_ONLY
    } else if k == 0 {
        READ_FIRST
    } else if k + 1 == count {
        READ_LAST
    } else {
        READ_MIDDLE
    }
}

/// The AETH of a READ response, which a Middle does not have.
fn response_aeth(opcode: u8, msn: u32) -> Option<Aeth>
    ensures { result ≡ aeth_at opcode msn }
{
    if opcode == READ_MIDDLE {
        return None;
    }
    let syndrome = Syndrome::Ack;
    Some(Aeth { syndrome, msn })
}

/// READ response `k` of so many, with these bytes.
fn read_datagram<'a>(
    link: &EndLink,
    msn: u32,
    n: u64,
    k: u64,
    count: u64,
    payload: &'a [u8],
) -> Datagram<'a>
    requires number { n < 2 ^ 63 }
    requires msn { msn < 2 ^ 24 }
    requires inside { k < count }
    requires bounded { length payload.now ≤ 4096 }
    ensures loaded { (packet result).payload ≡ payload.now }
    ensures says { (pool : Pool) → packet result
        ≡ addressed (read_response (telling (link_in pool link.now) msn) n k count payload.now) }
    ensures fits { Fits (packet result) }
{
    let opcode = response_opcode(k, count);
    let aeth = response_aeth(opcode, msn);
    let start = link.terms.peer_start;
    answer(opcode, link.peer, start, n, aeth, None, payload)
}

/// READ response `k` of so many with these bytes, in this memory.
fn response(
    link: &EndLink,
    due: &DueRead,
    k: u64,
    count: u64,
    payload: &[u8],
    memory: Vec<u8>,
) -> Sent
    requires number { due.now.first < 2 ^ 62 }
    requires msn { due.now.msn < 2 ^ 24 }
    requires all { count ≡ pieces due.now.spot.length link.now.terms.mtu }
    requires bounded { count ≤ 2 ^ 32 }
    requires inside { k < count }
    requires few { length payload.now ≤ 4096 }
    requires empty { memory.items ≡ [] }
    requires room { length payload.now + 92 ≤ vec_capacity memory }
    ensures { (pool : Pool) (r : Region) → payload.now ≡ cut (due.now.spot.off + k * link.now.terms.mtu) (piece_length due.now.spot.length k link.now.terms.mtu) r.bytes
        → result ≡ read_piece (telling (link_in pool link.now) due.now.msn) r due.now.spot.off due.now.spot.length due.now.first k }
{
    let number = due.first + k;
    let d = read_datagram(link, due.msn, number, k, count, payload);
    Sent {
        to: link.moves.partner,
        number: Some(number),
        bytes: written(&d, memory),
    }
}

/// The bytes of a spot from its byte `from` on, as many as the memory has: where they lie, if that is in one page, and
/// else copied into the memory.
fn bytes_of<'a>(
    pool: &'a PagePool,
    regions: &Regions,
    spot: RegionRange,
    from: u32,
    memory: &'a mut [u8],
) -> &'a [u8]
    requires held { AreHeld pool.now regions.now }
    requires spot { IsSpot regions.now spot }
    requires inside { from + length memory.old ≤ spot.length }
    ensures { result.now ≡ spot_bytes pool.now regions.now (part_of spot from (length memory.old)) }
{
    let count = memory.len() as u32;
    if let Some(bytes) = regions.piece(pool, spot, from, count) {
        return bytes;
    }
    regions.load_part(pool, spot, from, memory);
    memory
}

/// How many responses a READ of so many bytes has.
fn count_of(length: u32, mtu: u32) -> u64
    requires { 0 < mtu }
    ensures rule { result ≡ pieces length mtu }
    ensures bounded { result ≤ 2 ^ 32 }
{
    pieces_of(length, mtu)
}

/// READ response `k` of the so many that are due. Its bytes are read into the page, where they lie in two, and it is in
/// the memory.
fn piece_sent(
    pool: &PagePool,
    regions: &Regions,
    link: &EndLink,
    due: &DueRead,
    k: u64,
    count: u64,
    page: &mut [u8],
    memory: Vec<u8>,
) -> Sent
    requires held { AreHeld pool.now regions.now }
    requires terms { AreTerms link.now.terms }
    requires spot { IsSpot regions.now due.now.spot }
    requires number { due.now.first < 2 ^ 62 }
    requires msn { due.now.msn < 2 ^ 24 }
    requires all { count ≡ pieces due.now.spot.length link.now.terms.mtu }
    requires bounded { count ≤ 2 ^ 32 }
    requires inside { k < count }
    requires page { length page.old ≡ 4096 }
    requires empty { memory.items ≡ [] }
    requires room { piece_length due.now.spot.length k link.now.terms.mtu + 92
        ≤ vec_capacity memory }
    ensures { result ≡ read_piece (telling (link_in pool.now link.now) due.now.msn)
        (at (λ r. r.keys.local) no_region due.now.spot.region (regions_of pool.now regions.now))
        due.now.spot.off due.now.spot.length due.now.first k }
{
    let spot = due.spot;
    let (from, length) = piece_at(spot.length, k, link.terms.mtu);
    let payload = bytes_of(pool, regions, spot, from, &mut page[..length as usize]);
    response(link, due, k, count, payload, memory)
}

/// The READ responses that are due, the last one first, in this list.
fn responses(
    alloc: Global,
    buffers: &mut Buffers,
    list: &mut Vec<Sent>,
    pool: &PagePool,
    regions: &Regions,
    link: &EndLink,
    due: &DueRead,
) -> Result<(), AllocError>
    requires empty { list.old.items ≡ [] }
    requires held { AreHeld pool.now regions.now }
    requires terms { AreTerms link.now.terms }
    requires spot { IsSpot regions.now due.now.spot }
    requires number { due.now.first < 2 ^ 62 }
    requires msn { due.now.msn < 2 ^ 24 }
    ensures all { OnOk result (reverse list.new.items ≡ responses pool.now
        (regions_of pool.now regions.now) link.now due.now
        (pieces due.now.spot.length link.now.terms.mtu)) }
    ensures bounded { length list.new.items ≤ 2 ^ 32 }
{
    let (spot, mtu) = (due.spot, link.terms.mtu);
    let count = count_of(spot.length, mtu);
    list.try_reserve(count as usize)?;
    for k in (0..count).rev() {
        let (_, length) = piece_at(spot.length, k, mtu);
        let memory = buffers.take(alloc, length as usize + MOST_HEADERS)?;
        let page = &mut buffers.payload[..];
        let response = piece_sent(pool, regions, link, due, k, count, page, memory);
        list.push(response)?;
    }
    Ok(())
}

/// Prepares the memory for a reply to a datagram of that opcode, where it may have one.
fn prepare_for(alloc: Global, buffers: &mut Buffers, opcode: u8) -> Result<(), AllocError>
    ensures room { OnOk result (IsRoomFor opcode buffers.new.room) }
    ensures unanswered { may_answer opcode ≡ false → IsOk result }
{
    if is_request(opcode) || opcode == RESUME {
        buffers.make_room(alloc, MOST_HEADERS)?;
    }
    Ok(())
}

/// The READ responses that are due for a datagram, if any, the last one first, and memory for each other reply, which is
/// kept in the buffers. A response has no reply, and no memory is taken for it.
#[inline(always)]
fn replies_for(
    alloc: Global,
    buffers: &mut Buffers,
    read: &mut Vec<Sent>,
    pool: &PagePool,
    regions: &Regions,
    domain: Name,
    link: &EndLink,
    d: &Datagram<'_>,
) -> Result<(), AllocError>
    requires empty { read.old.items ≡ [] }
    requires held { AreHeld pool.now regions.now }
    requires terms { AreTerms link.now.terms }
    requires fits { Fits (packet d.now) }
    ensures room { OnOk result (IsRoomFor d.now.opcode buffers.new.room) }
    ensures unanswered { may_answer d.now.opcode ≡ false → IsOk result }
    ensures bounded { length read.new.items ≤ 2 ^ 32 }
    ensures read { (due : DueRead) → due_in link.now (regions_of pool.now regions.now) domain (packet d.now) ≡ Some due
        → OnOk result (reverse read.new.items ≡ responses pool.now (regions_of pool.now regions.now) link.now due (pieces due.spot.length link.now.terms.mtu)) }
{
    if let Some(due) = link.due(regions, domain, d) {
        responses(alloc, buffers, read, pool, regions, link, &due)?;
    }
    prepare_for(alloc, buffers, d.opcode)
}

/// A datagram without a payload, in this memory. It takes no other.
#[inline(always)]
fn put(
    room: &mut DatagramRoom,
    sent: &mut Option<Sent>,
    to: Address,
    number: Option<u64>,
    d: &Datagram<'_>,
)
    requires fits { Fits (packet d.now) }
    requires room { HasRoomFor room.old 92 }
    requires short { length (wire_of (packet d.now)) ≤ 92 }
    ensures { sent.new
        ≡ Some (record { to = to; number = number; bytes = wire_of (packet d.now) }) }
{
    let bytes = room.write(d);
    *sent = Some(Sent { to, number, bytes });
}

/// A reply without bytes, to the recorded place of the partner, in this memory. It takes no other.
#[inline(always)]
fn put_reply(room: &mut DatagramRoom, sent: &mut Option<Sent>, link: &EndLink, reply: EndReply)
    requires room { HasRoom reply room.old }
    requires reply { (held : List RegisteredRegion) × IsReply held link.now reply }
    requires bare { HasNoBytes reply }
    requires none { sent.old ≡ None }
    ensures { (pool : Pool) (regions : List Region)
        → option_to_list sent.new ≡ sent_by regions (link_in pool link.now) reply }
{
    let (to, peer, start) = (link.moves.partner, link.peer, link.terms.peer_start);
    let msn = link.responder.parts().msn;
    match reply {
        EndReply::Nothing => (),
        EndReply::Acknowledge { number, syndrome } => {
            let aeth = Some(Aeth { syndrome, msn });
            let d = answer(ACKNOWLEDGE, peer, start, number, aeth, None, &[]);
            put(room, sent, to, Some(number), &d)
        }
        EndReply::Old { number, old } => {
            let syndrome = Syndrome::Ack;
            let aeth = Some(Aeth { syndrome, msn });
            let old = Some(old);
            let d = answer(ATOMIC_ACKNOWLEDGE, peer, start, number, aeth, old, &[]);
            put(room, sent, to, Some(number), &d)
        }
        EndReply::ResumeAck { count, address } => {
            let d = moving(RESUME_ACK, peer, ResumeBody { count, address });
            put(room, sent, to, None, &d)
        }
        EndReply::ReadBytes { .. } => unreachable!(),
    }
}

/// What is sent for a reply of an end: the READ responses that are there, which go where the reply is none, or a reply
/// without bytes, in this memory. It takes no other.
#[inline(always)]
fn put_answer(
    room: &mut DatagramRoom,
    sent: &mut Option<Sent>,
    read: &mut Vec<Sent>,
    endpoint: &Endpoint,
    reply: EndReply,
)
    requires room { IfSome endpoint.now.link (λ _. HasRoom reply room.old) }
    requires reply { (held : List RegisteredRegion)
        × IfSome endpoint.now.link (λ l. IsReply held l reply) }
    requires none { sent.old ≡ None }
    ensures all { (pool : Pool) (regions : List Region)
        → IsSentFor reply (reverse read.old.items) (option_map_or (λ l. sent_by regions (link_in pool l) reply) endpoint.now.link []) (option_to_list sent.new ++ reverse read.new.items) }
    ensures alone { (sent.new ≡ None) ⊎ (read.new.items ≡ []) }
    ensures few { length read.new.items ≤ length read.old.items }
{
    if let EndReply::ReadBytes { .. } = reply {
        return;
    }
    if read.len() > 0 {
        read.clear();
    }
    if let Some(link) = &endpoint.link {
        put_reply(room, sent, link, reply);
    }
}

/// An empty list with room for a datagram, where one of that opcode may be answered. Else it has none, and no memory is
/// taken.
fn list_for(alloc: Global, draft: &mut Draft, opcode: u8) -> Result<Vec<Sent>, AllocError>
    ensures empty { IfOk result (λ l. l.items ≡ []) }
    ensures room { may_answer opcode ≡ true → IfOk result (λ l. 0 < vec_capacity l) }
    ensures unanswered { may_answer opcode ≡ false → IsOk result }
{
    if is_request(opcode) || opcode == RESUME {
        return draft.buffers.take_list(alloc, 1);
    }
    Ok(Vec::new(alloc))
}

impl ContextState {
    /// Takes a datagram at the connected end of that place. What answers it is in the draft then, and what was there before
    /// is gone. `None` comes exactly where no connected end stands there, and nothing has changed then, and no memory is
    /// taken. None is taken for a datagram that is neither a request nor a RESUME. Errors: `AllocError` when out of memory;
    /// nothing has changed. What the draft holds is then not told.
    pub fn take_into(
        &mut self,
        alloc: Global,
        draft: &mut Draft,
        pool: &mut PagePool,
        place: usize,
        d: &Datagram<'_>,
    ) -> Result<Option<ArrivalEffect>, AllocError>
        requires is { IsContext pool.old self.old }
        requires fits { Fits (packet d.now) }
        ensures none { (n : Name) → IfOk result (λ r. is_none r
            ≡ is_none (link_at (context_in pool.old n self.old) place)) }
        ensures took { (n : Name) (e : End) (l : Link) → slice_get (context_in pool.old n self.old).ends place ≡ Some e → e.link ≡ Some l
            → IfOk result (λ r. IfSome r (λ took. takes (context_in pool.old n self.old) e l (packet d.now) ≡ record { context = context_in pool.new n self.new; took = took; sent = draft.new })) }
        ensures nothing { IfOk result (λ r. IfNone r (self.new ≡ self.old)) }
        ensures nothing_pool { IfOk result (λ r. IfNone r (pool.new ≡ pool.old)) }
        ensures nothing_draft { IfOk result (λ r. IfNone r (draft.new ≡ [])) }
        ensures bounded { length draft.new ≤ 2 ^ 32 }
        ensures is { IsContext pool.new self.new }
        ensures moves { Moves pool.old pool.new self.old self.new }
        ensures numbers { (n : Name) → map (λ e. e.number) (context_in pool.new n self.new).ends
            ≡ map (λ e. e.number) (context_in pool.old n self.old).ends }
        ensures never_out_of_memory { (n : Name)
            → link_at (context_in pool.old n self.old) place ≡ None → IsOk result }
        ensures unanswered { may_answer d.now.opcode ≡ false → IsOk result }
        ensures unanswered_draft { may_answer d.now.opcode ≡ false → draft.new ≡ [] }
        ensures err { OnErr result (self.new ≡ self.old) }
        ensures err_pool { OnErr result (pool.new ≡ pool.old) }
    {
        draft.clear();
        let Some((_, slot)) = self.ends.get_index(place) else {
            return Ok(None);
        };
        let Some(link) = &slot.endpoint.link else {
            return Ok(None);
        };
        let domain = slot.endpoint.domain;
        let (buffers, read) = (&mut draft.buffers, &mut draft.responses);
        replies_for(alloc, buffers, read, pool, &self.regions, domain, link, d)?;
        let slot = self.ends.get_index_mut(place).unwrap();
        let memory = EndMemory {
            pool,
            regions: &mut self.regions,
            queues: &mut self.queues,
            send: slot.send,
            recv: slot.recv,
        };
        let done = slot.endpoint.take(memory, d);
        put_answer(
            &mut buffers.room,
            &mut draft.sent,
            read,
            &slot.endpoint,
            done.reply,
        );
        Ok(Some(done.took))
    }

    /// Whether a connected end stands at a place.
    fn is_connected_at(&self, place: usize) -> bool
        ensures { (pool : Pool) (n : Name) → result
            ≡ is_some (link_at (context_in pool n self.now) place) }
    {
        self.marks_at(place).is_some()
    }

    /// Takes a datagram at the connected end of that place. `None` comes exactly where no connected end stands there,
    /// and nothing has changed then, and no memory is taken. None is taken for a datagram that is neither a request nor a
    /// RESUME. Errors: `AllocError` when out of memory; nothing has changed.
    pub fn take(
        &mut self,
        alloc: Global,
        draft: &mut Draft,
        pool: &mut PagePool,
        place: usize,
        d: &Datagram<'_>,
    ) -> Result<Option<ArrivalOutcome>, AllocError>
        requires is { IsContext pool.old self.old }
        requires fits { Fits (packet d.now) }
        ensures none { (n : Name) → IfOk result (λ r. is_none r
            ≡ is_none (link_at (context_in pool.old n self.old) place)) }
        ensures took { (n : Name) (e : End) (l : Link) → slice_get (context_in pool.old n self.old).ends place ≡ Some e → e.link ≡ Some l
            → IfOk result (λ r. IfSome r (λ t. takes (context_in pool.old n self.old) e l (packet d.now) ≡ record { context = context_in pool.new n self.new; took = t.took; sent = t.sent })) }
        ensures nothing { IfOk result (λ r. IfNone r (self.new ≡ self.old)) }
        ensures nothing_pool { IfOk result (λ r. IfNone r (pool.new ≡ pool.old)) }
        ensures bounded { IfOk result (λ r. IfSome r (λ t. length t.sent ≤ 2 ^ 32)) }
        ensures is { IsContext pool.new self.new }
        ensures moves { Moves pool.old pool.new self.old self.new }
        ensures numbers { (n : Name) → map (λ e. e.number) (context_in pool.new n self.new).ends
            ≡ map (λ e. e.number) (context_in pool.old n self.old).ends }
        ensures never_out_of_memory { (n : Name)
            → link_at (context_in pool.old n self.old) place ≡ None → IsOk result }
        ensures unanswered { may_answer d.now.opcode ≡ false → IsOk result }
        ensures err { OnErr result (self.new ≡ self.old) }
        ensures err_pool { OnErr result (pool.new ≡ pool.old) }
    {
        if !self.is_connected_at(place) {
            return Ok(None);
        }
        let list = list_for(alloc, draft, d.opcode)?;
        let Some(took) = self.take_into(alloc, draft, pool, place, d)? else {
            return Ok(None);
        };
        let sent = draft.take_all(list);
        Ok(Some(ArrivalOutcome { took, sent }))
    }
}
