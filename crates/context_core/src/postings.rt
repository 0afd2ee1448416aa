//! Requests posted.

ghost use Rattle.std.specs.Prelude.{◌≡◌, ◌+◌, ◌<◌, ◌&&◌, not, Some, None, All, IfOk, IfSome, OnErr, OnOk, bytes_eq, length, map, nat_le, nat_lt, position, slice_get, if◌then◌else◌};
ghost use Rattle.std.specs.Map.{keys_of};
ghost use Rattle.std.specs.Result.{result_err};
ghost use Rattle.rdma_types.specs.Causes.{first_cause};
ghost use Rattle.rdma_types.specs.Kinds as kinds;
ghost use Rattle.rdma_types.specs.Shapes.{IsLawfulShape};
ghost use Rattle.rdma_types.specs.declared.answers.Answer.TheVariants as answer;
ghost use Rattle.rdma_types.specs.declared.answers.Refusal.TheVariants as refusal;
ghost use Rattle.rdma_types.specs.declared.names.Name.{Name};
ghost use Rattle.page_pool.specs.Pool.{Pool, free_pages};
ghost use Rattle.memory_keys.specs.Regions.{AreHeld, IsSpot, pages_touched};
ghost use Rattle.protocol.specs.DeviceStep.{answers, posts, with_context};
ghost use Rattle.protocol.specs.Memory as rule;
ghost use Rattle.protocol.specs.Refusals.{end_causes, send_causes};
ghost use Rattle.protocol.specs.State.{Device, end_at};
ghost use Rattle.endpoint_core.specs.Sound.{IsEnd};
ghost use Rattle.context_core.specs.Context.{HasQueues, Holding, IsContext, Moves, context_in};
ghost use Rattle.context_core.specs.Faults.{refusal_of};
ghost use Rattle.context_core.specs.Requests.{IsTaken, TakesRequest, is_past, post_causes, slot_causes, taken_length};

use crate::receives::{is_full, reserve};
use crate::{ContextFault, ContextState, EndSlot};
use end_queues::completion_queue::Cq;
use end_queues::work_queues::QueuedRequest;
use endpoint_core::{EndLink, EndMemory};
use indexmap::IndexMap;
use memory_keys::{MemFault, Payload, RegionRange, Regions};
use page_pool::PagePool;
use rdma_types::limits::{MOST_BYTES, NUMBER_LIMIT};
use rdma_types::{Kind, Name, Refusal, Request, Shape};
use std::alloc::Global;
use transport::segmenter::span_of;

/// The number past a request would not be below the limit.
fn is_past_limit(link: &EndLink, shape: &Shape) -> bool
    requires mtu { 0 < link.now.terms.mtu }
    requires terms { link.now.requester.terms ≡ link.now.terms }
    ensures { (r : Request) → r.shape ≡ shape.now → result ≡ is_past (Some link.now) r }
{
    let span = span_of(shape, link.terms.mtu);
    !link.ended && link.requester.end().saturating_add(span) >= NUMBER_LIMIT
}

/// As many requests are not told as the send depth allows.
fn is_send_full(link: &EndLink, depth: u32) -> bool
    ensures { result ≡ nat_le depth (length link.now.requester.items) }
{
    match depth.checked_sub(1) {
        None => true,
        Some(last) => link.requester.posted(last as usize).is_some(),
    }
}

/// Bytes or an old value land in the local place of a request of this kind.
fn lands(kind: Kind) -> bool
    ensures { result ≡ kinds.lands kind }
{
    matches!(kind, Kind::Read | Kind::CompareSwap | Kind::FetchAdd)
}

/// The part of a request's local place that is taken: all of it for a Write or Send, but nothing in Error.
fn source(link: &EndLink, kind: Kind, place: RegionRange) -> RegionRange
    ensures { result ≡ (if kinds.takes_bytes kind
        && not link.now.ended then place else record { region = 0; off = 0; length = 0 }) }
{
    if lands(kind) || link.ended {
        return RegionRange {
            region: 0,
            off: 0,
            length: 0,
        };
    }
    place
}

/// Where the bytes of a request are that a queue pair takes, or why it takes no request.
fn source_at(
    regions: &Regions,
    queues: &IndexMap<Name, Cq>,
    slot: &EndSlot,
    request: &Request,
) -> Result<RegionRange, Refusal>
    requires there { slot.now.send < length queues.now.entries }
    requires end { (pool : Pool) × IsEnd pool regions.now slot.now.endpoint }
    ensures refused { (pool : Pool) → result_err result
        ≡ first_cause (slot_causes pool regions.now queues.now.entries slot.now request.now) }
    ensures takes { IfOk result (TakesRequest regions.now queues.now.entries slot.now request.now) }
{
    let endpoint = &slot.endpoint;
    let Some(link) = &endpoint.link else {
        return Err(Refusal::BadState);
    };
    let shape = &request.shape;
    if is_past_limit(link, shape) {
        return Err(Refusal::TooMany);
    }
    if shape.length > MOST_BYTES {
        return Err(Refusal::TooLong);
    }
    let landing = lands(shape.kind);
    let Some(place) = regions.check_local(
        endpoint.domain,
        request.lkey,
        request.local,
        shape.length,
        landing,
    ) else {
        return Err(Refusal::BadKey);
    };
    if is_send_full(link, endpoint.send_depth) {
        return Err(Refusal::SqFull);
    }
    let (_, queue) = queues.get_index(slot.send as usize).unwrap();
    if is_full(queue) {
        return Err(Refusal::CqFull);
    }
    Ok(source(link, shape.kind, place))
}

/// The place of a queue pair that takes a request, and where the bytes are that are taken for it.
fn admitted(
    regions: &Regions,
    queues: &IndexMap<Name, Cq>,
    ends: &IndexMap<Name, EndSlot>,
    name: Name,
    request: &Request,
) -> Result<(usize, RegionRange), Refusal>
    requires placed { All (HasQueues queues.now.entries) ends.now.entries }
    requires sound { (pool : Pool)
        × All (λ e. IsEnd pool regions.now e.1.endpoint) ends.now.entries }
    ensures refused { (pool : Pool) (n : Name) (h : Holding) → IsContext pool h → h.regions ≡ regions.now → h.queues ≡ queues.now.entries → h.ends ≡ ends.now.entries
        → result_err result ≡ first_cause (end_causes (context_in pool n h) name (post_causes (context_in pool n h) (end_at (context_in pool n h) name) request.now)) }
    ensures place { IfOk result (λ x. position (bytes_eq name) (keys_of ends.now.entries)
        ≡ Some x.0) }
    ensures there { IfOk result (λ x. x.0 < length ends.now.entries) }
    ensures takes { IfOk result (λ x. IfSome (slice_get ends.now.entries x.0)
        (λ e. TakesRequest regions.now queues.now.entries e.1 request.now x.1)) }
{
    let Some(place) = ends.get_index_of(&name) else {
        return Err(Refusal::NoSuch);
    };
    let (_, slot) = ends.get_index(place).unwrap();
    match source_at(regions, queues, slot, request) {
        Ok(source) => Ok((place, source)),
        Err(refusal) => Err(refusal),
    }
}

/// Takes bytes as they are.
fn taken(
    regions: &mut Regions,
    pool: &mut PagePool,
    alloc: Global,
    source: RegionRange,
) -> Result<Payload, ContextFault>
    requires held { AreHeld pool.old regions.old }
    requires inside { IsSpot regions.old source }
    ensures refused { refusal_of result ≡ (if nat_lt (free_pages pool.old) (pages_touched source)
        then Some refusal.NoPage else None) }
    ensures same { regions.new ≡ regions.old }
    ensures taken { IfOk result (IsTaken pool.old pool.new regions.old source) }
    ensures err { OnErr result (pool.new ≡ pool.old) }
{
    match regions.snapshot(pool, alloc, source) {
        Ok(payload) => Ok(payload),
        Err(MemFault::NoPage) => Err(Refusal::NoPage.into()),
        Err(_) => Err(ContextFault::OutOfMemory),
    }
}

impl ContextState {
    /// Posts a request, and takes the bytes of a Write or Send as they are.
    ///
    /// Errors: refused for the first of these causes that holds (this project's choice): `NoSuch` where no queue pair
    /// has the name; `TooMany` where the packet number past the request would not be below 2^62, unless the queue pair
    /// is in Error; `BadState` where the queue pair is in Init; `TooLong` for a message over 1,048,576 bytes; `BadKey`
    /// where the local place is not granted; `SqFull` where the untold requests reach the send depth; `CqFull` where
    /// entries and reserved places reach the capacity of the completion queue; `NoPage` where fewer pages are free than
    /// the bytes take, unless the queue pair is in Error. Or `OutOfMemory`. Nothing has changed then.
    pub fn post_send(
        &mut self,
        alloc: Global,
        pool: &mut PagePool,
        name: Name,
        request: &Request,
    ) -> Result<(), ContextFault>
        requires is { IsContext pool.old self.old }
        requires shape { IsLawfulShape request.now.shape }
        ensures refused { (n : Name) (d : Device) → rule.free_pages d ≡ free_pages pool.old
            → refusal_of result ≡ first_cause (end_causes (context_in pool.old n self.old) name (send_causes d (context_in pool.old n self.old) (end_at (context_in pool.old n self.old) name) request.now)) }
        ensures posted { (n : Name) (d : Device)
            → OnOk result (posts d (context_in pool.old n self.old) (end_at (context_in pool.old n self.old) name) request.now
            ≡ answers (with_context d (context_in pool.new n self.new)) answer.Done) }
        ensures is { IsContext pool.new self.new }
        ensures moves { Moves pool.old pool.new self.old self.new }
        ensures numbers { (n : Name) → map (λ e. e.number) (context_in pool.new n self.new).ends
            ≡ map (λ e. e.number) (context_in pool.old n self.old).ends }
        ensures err { OnErr result (self.new ≡ self.old) }
        ensures err_pool { OnErr result (pool.new ≡ pool.old) }
    {
        let (place, source) = admitted(&self.regions, &self.queues, &self.ends, name, request)?;
        let payload = taken(&mut self.regions, pool, alloc, source)?;
        let slot = self.ends.get_index_mut(place).unwrap();
        reserve(&mut self.queues, slot.send);
        let memory = EndMemory {
            pool,
            regions: &mut self.regions,
            queues: &mut self.queues,
            send: slot.send,
            recv: slot.recv,
        };
        let posted = QueuedRequest {
            request: *request,
            payload,
        };
        slot.endpoint.post_send(posted, memory).unwrap();
        Ok(())
    }
}
