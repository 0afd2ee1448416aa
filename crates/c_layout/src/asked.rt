//! What C asks for, as events of a device. None stands for what is outside of what the event allows.

ghost use Rattle.std.specs.Prelude.{◌≡◌, ◌<◌, ◌==◌, position, IfOk, IfSome, IsTrue};
ghost use Rattle.rdma_types.specs.Kinds as kinds;
ghost use Rattle.rdma_types.specs.Limits as limits;
ghost use Rattle.rdma_types.specs.Limits.{AreTerms};
ghost use Rattle.rdma_types.specs.Shapes as shapes;
ghost use Rattle.rdma_types.specs.Shapes.{IsLawfulShape};
ghost use Rattle.protocol.specs.Events.{IsLawfulEvent};
ghost use Rattle.protocol.specs.declared.events.Event.TheVariants as event;
ghost use Rattle.c_layout.specs.Asked as asked;

use crate::layout::{CAddress, CName, CObject, CQpOptions, CReceive, CRequest, CTerms};
use protocol::Event;
use rdma_types::{Address, Items, Kind, Name, ObjName, Receive, Request, Rights, Shape, Terms};
use std::alloc::{AllocError, Global};

/// The place of the first zero.
fn first_zero(name: &CName) -> Option<usize>
    ensures place { result ≡ position (λ b. b == 0) name.now.bytes }
    ensures within { IfSome result (λ n. n < 16) }
{
    name.bytes.iter().position(|b| *b == 0)
}

/// The bytes before the first zero.
fn text_of(name: &CName) -> &[u8]
    ensures { result.now ≡ asked.text_of name.now }
{
    match first_zero(name) {
        Some(count) => &name.bytes[..count],
        None => &name.bytes,
    }
}

/// The name that a text spells; None exactly where it spells none.
#[inline(always)]
pub fn name_asked(name: &CName) -> Option<Name>
    ensures { result ≡ asked.name_asked name.now }
{
    Name::read(text_of(name))
}

/// The thing that two texts spell; None exactly where one of them spells no name.
pub fn object_asked(object: &CObject) -> Option<ObjName>
    ensures { result ≡ asked.object_asked object.now }
{
    let context = name_asked(&object.context)?;
    let name = name_asked(&object.name)?;
    Some(ObjName { context, name })
}

/// A name, or nothing where the first byte is zero.
fn maybe_name(name: &CName) -> Option<Option<Name>>
    ensures { result ≡ asked.maybe_name name.now }
{
    if name.bytes[0] == 0 {
        return Some(None);
    }
    name_asked(name).map(Some)
}

/// An address.
pub fn address_asked(address: &CAddress) -> Address
    ensures { result ≡ asked.address_asked address.now }
{
    Address {
        ip: address.ip,
        port: address.port,
    }
}

/// A new context.
pub fn make_context(context: &CName) -> Option<Event>
    ensures event { result ≡ asked.context_event context.now }
    ensures lawful { IfSome result IsLawfulEvent }
{
    let name = name_asked(context)?;
    Some(Event::MakeContext { name })
}

/// A new domain.
pub fn make_domain(domain: &CObject) -> Option<Event>
    ensures event { result ≡ asked.domain_event domain.now }
    ensures lawful { IfSome result IsLawfulEvent }
{
    let name = object_asked(domain)?;
    Some(Event::MakeDomain { name })
}

/// Whether a region may have this base, length and rights.
fn is_region(base: u64, length: u32, rights: u32) -> bool
    ensures { result ≡ asked.is_region base length rights }
{
    base <= 1 << 63 && length >= 1 && length <= 16_777_216 && rights <= 15
}

/// A new region.
pub fn make_region(
    region: &CObject,
    domain: &CName,
    base: u64,
    length: u32,
    rights: u32,
) -> Option<Event>
    ensures event { result ≡ asked.region_event region.now domain.now base length rights }
    ensures lawful { IfSome result IsLawfulEvent }
{
    if !is_region(base, length, rights) {
        return None;
    }
    let name = object_asked(region)?;
    let domain = maybe_name(domain)?;
    Some(Event::MakeRegion {
        name,
        domain,
        base,
        length,
        rights: Rights(rights as u8),
    })
}

/// Whether a completion queue may have this capacity.
fn is_capacity(capacity: u32) -> bool
    ensures { result ≡ asked.is_capacity capacity }
{
    capacity >= 1 && capacity <= 16_384
}

/// A new completion queue.
pub fn make_cq(cq: &CObject, capacity: u32) -> Option<Event>
    ensures event { result ≡ asked.cq_event cq.now capacity }
    ensures lawful { IfSome result IsLawfulEvent }
{
    if !is_capacity(capacity) {
        return None;
    }
    let name = object_asked(cq)?;
    Some(Event::MakeCq { name, capacity })
}

/// Whether a queue may have so many places.
fn is_depth(depth: u32) -> bool
    ensures { result ≡ asked.is_depth depth }
{
    depth >= 1 && depth <= 256
}

/// A new queue pair.
pub fn make_qp(qp: &CObject, options: &CQpOptions) -> Option<Event>
    ensures event { result ≡ asked.qp_event qp.now options.now }
    ensures lawful { IfSome result IsLawfulEvent }
{
    if !(is_depth(options.send_depth) && is_depth(options.recv_depth)) {
        return None;
    }
    let name = object_asked(qp)?;
    let domain = maybe_name(&options.domain)?;
    let send_cq = maybe_name(&options.send_cq)?;
    let recv_cq = maybe_name(&options.recv_cq)?;
    Some(Event::MakeQp {
        name,
        domain,
        send_cq,
        recv_cq,
        send_depth: options.send_depth,
        recv_depth: options.recv_depth,
    })
}

/// A region is dropped.
pub fn drop_region(region: &CObject) -> Option<Event>
    ensures event { result ≡ asked.drop_region_event region.now }
    ensures lawful { IfSome result IsLawfulEvent }
{
    let name = object_asked(region)?;
    Some(Event::DropRegion { name })
}

/// Whether a packet may have so many bytes of payload.
fn is_mtu(mtu: u32) -> bool
    ensures { result ≡ limits.is_mtu mtu }
{
    matches!(mtu, 256 | 512 | 1024 | 2048 | 4096)
}

/// Whether the terms of a connection are in their ranges.
fn are_terms(terms: &CTerms) -> bool
    ensures test { result ≡ asked.are_terms terms.now }
    ensures terms { IsTrue result → AreTerms (asked.terms_of terms.now) }
{
    is_mtu(terms.mtu)
        && terms.own_start < 1 << 24
        && terms.peer_start < 1 << 24
        && terms.retry <= 7
        && terms.rnr <= 7
        && terms.reads >= 1
        && terms.reads <= 16
}

/// A connection of one end.
pub fn connect(qp: &CObject, peer: u32, partner: &CAddress, terms: &CTerms) -> Option<Event>
    ensures event { result ≡ asked.connect_event qp.now peer partner.now terms.now }
    ensures lawful { IfSome result IsLawfulEvent }
{
    if !(peer < 1 << 24 && are_terms(terms)) {
        return None;
    }
    let end = object_asked(qp)?;
    Some(Event::Connect {
        end,
        peer,
        partner: address_asked(partner),
        terms: Terms {
            mtu: terms.mtu,
            own_start: terms.own_start,
            peer_start: terms.peer_start,
            retry: terms.retry,
            rnr: terms.rnr,
            reads: terms.reads,
        },
    })
}

/// Bytes for a region, which are copied. Errors: `AllocError` when out of memory.
pub fn store(alloc: Global, region: ObjName, at: u64, bytes: &[u8]) -> Result<Event, AllocError>
    ensures { IfOk result (λ e. e ≡ event.Store region at bytes.now) }
{
    let bytes = Items::new(Vec::from_slice(alloc, bytes)?);
    Ok(Event::Store { region, at, bytes })
}

/// As many bytes or completions may not be asked for.
const MOST: usize = 1 << 32;

/// Bytes of a region.
pub fn load(region: &CObject, at: u64, count: usize) -> Option<Event>
    ensures event { result ≡ asked.load_event region.now at count }
    ensures lawful { IfSome result IsLawfulEvent }
{
    if count >= MOST {
        return None;
    }
    let region = object_asked(region)?;
    Some(Event::Load {
        region,
        at,
        length: count as u32,
    })
}

/// The oldest completions of a queue.
pub fn poll(cq: &CObject, room: usize) -> Option<Event>
    ensures event { result ≡ asked.poll_event cq.now room }
    ensures lawful { IfSome result IsLawfulEvent }
{
    if room >= MOST {
        return None;
    }
    let cq = object_asked(cq)?;
    Some(Event::Poll {
        cq,
        max: room as u32,
    })
}

/// The kind of a request.
fn kind_asked(kind: u32) -> Option<Kind>
    ensures { result ≡ asked.kind_asked kind }
{
    match kind {
        1 => Some(Kind::Write),
        2 => Some(Kind::Send),
        3 => Some(Kind::Read),
        4 => Some(Kind::CompareSwap),
        5 => Some(Kind::FetchAdd),
        _ => None,
    }
}

/// Whether a request of a kind has a place at the partner.
fn has_remote(kind: Kind) -> bool
    ensures { result ≡ shapes.has_remote kind }
{
    !matches!(kind, Kind::Send)
}

/// Whether a request is an atomic.
fn is_atomic(kind: Kind) -> bool
    ensures { result ≡ kinds.is_atomic kind }
{
    matches!(kind, Kind::CompareSwap | Kind::FetchAdd)
}

/// Whether a request takes bytes of its owner.
fn takes_bytes(kind: Kind) -> bool
    ensures { result ≡ kinds.takes_bytes kind }
{
    matches!(kind, Kind::Write | Kind::Send)
}

/// Whether a request compares.
fn is_swap(kind: Kind) -> bool
    ensures { result ≡ shapes.is_swap kind }
{
    matches!(kind, Kind::CompareSwap)
}

/// Whether what the kind does not use is 0 or None, and an atomic has length 8.
fn is_shape(shape: &Shape) -> bool
    ensures test { result ≡ asked.is_shape shape.now }
    ensures lawful { IsTrue result → IsLawfulShape shape.now }
{
    let kind = shape.kind;
    (!is_atomic(kind) || shape.length == 8)
        && (takes_bytes(kind) || shape.imm.is_none())
        && (has_remote(kind) || shape.remote == 0 && shape.rkey == 0)
        && (is_atomic(kind) || shape.swap_add == 0)
        && (is_swap(kind) || shape.compare == 0)
}

/// A bit of the flags.
fn has_flag(flags: u32, bit: u32) -> bool
    ensures { result ≡ asked.has_flag flags bit }
{
    flags & bit != 0
}

/// What a request asks of the partner.
fn shape_asked(request: &CRequest) -> Option<Shape>
    ensures shape { result ≡ asked.shape_asked request.now }
    ensures lawful { IfSome result IsLawfulShape }
{
    let kind = kind_asked(request.kind)?;
    let imm = if has_flag(request.flags, 4) {
        Some(request.imm)
    } else {
        None
    };
    let shape = Shape {
        kind,
        length: request.length,
        remote: request.remote,
        rkey: request.remote_key,
        imm,
        swap_add: request.swap_add,
        compare: request.compare,
    };
    if is_shape(&shape) { Some(shape) } else { None }
}

/// Whether no flag but the three is set, and the immediate is 0 where it is not there.
fn are_flags(request: &CRequest) -> bool
    ensures { result ≡ asked.are_flags request.now }
{
    request.flags <= 7 && (has_flag(request.flags, 4) || request.imm == 0)
}

/// A request of the send queue.
pub fn post_send(qp: &CObject, request: &CRequest) -> Option<Event>
    ensures event { result ≡ asked.send_event qp.now request.now }
    ensures lawful { IfSome result IsLawfulEvent }
{
    if !are_flags(request) {
        return None;
    }
    let end = object_asked(qp)?;
    let shape = shape_asked(request)?;
    let request = Request {
        id: request.id,
        shape,
        lkey: request.local_key,
        local: request.local,
        signaled: has_flag(request.flags, 1),
        fence: has_flag(request.flags, 2),
    };
    Some(Event::PostSend { end, request })
}

/// A receive.
pub fn post_recv(qp: &CObject, receive: &CReceive) -> Option<Event>
    ensures event { result ≡ asked.recv_event qp.now receive.now }
    ensures lawful { IfSome result IsLawfulEvent }
{
    let end = object_asked(qp)?;
    let receive = Receive {
        id: receive.id,
        lkey: receive.local_key,
        local: receive.local,
        length: receive.length,
    };
    Some(Event::PostRecv { end, receive })
}

/// An expiry of the retransmission timer.
pub fn expire(qp: &CObject) -> Option<Event>
    ensures event { result ≡ asked.expire_event qp.now }
    ensures lawful { IfSome result IsLawfulEvent }
{
    let end = object_asked(qp)?;
    Some(Event::Expire { end })
}

/// The RNR timer is over.
pub fn rnr_over(qp: &CObject) -> Option<Event>
    ensures event { result ≡ asked.rnr_over_event qp.now }
    ensures lawful { IfSome result IsLawfulEvent }
{
    let end = object_asked(qp)?;
    Some(Event::RnrOver { end })
}

/// A context leaves.
pub fn stop(context: &CName, alone: u32) -> Option<Event>
    ensures event { result ≡ asked.stop_event context.now alone }
    ensures lawful { IfSome result IsLawfulEvent }
{
    if alone > 1 {
        return None;
    }
    let context = name_asked(context)?;
    Some(Event::Stop {
        context,
        alone: alone == 1,
    })
}

/// A husk is forgotten.
pub fn release(context: &CName) -> Option<Event>
    ensures event { result ≡ asked.release_event context.now }
    ensures lawful { IfSome result IsLawfulEvent }
{
    let context = name_asked(context)?;
    Some(Event::Release { context })
}
