//! Receives posted.

ghost use Rattle.std.specs.Prelude.{◌≡◌, ◌≢◌, ◌<◌, ◌+◌, Some, None, All, IfNone, IfOk, IfSome, OnErr, OnOk, bytes_eq, false, length, map, position, slice_get};
ghost use Rattle.std.specs.Map.{keys_of, values_of};
ghost use Rattle.std.specs.Result.{result_err};
ghost use Rattle.indexmap.specs.IndexMap.{set_value_at};
ghost use Rattle.rdma_types.specs.Causes.{first_cause};
ghost use Rattle.rdma_types.specs.declared.answers.Answer.TheVariants as answer;
ghost use Rattle.rdma_types.specs.declared.names.Name.{Name};
ghost use Rattle.page_pool.specs.Pool.{Pool};
ghost use Rattle.end_queues.specs.Completions.{reserving, used_places};
ghost use Rattle.memory_keys.specs.Regions.{regions_of};
ghost use Rattle.protocol.specs.DeviceStep.{answers, receives, with_context};
ghost use Rattle.protocol.specs.Refusals.{end_causes, is_full, recv_causes};
ghost use Rattle.protocol.specs.State.{Context, Device, End, end_at};
ghost use Rattle.context_core.specs.Context.{HasQueues, Holding, IsContext, Moves, context_in};
ghost use Rattle.context_core.specs.Queues.{TakesReceive, is_full_at};

use crate::{ContextState, EndSlot};
use end_queues::completion_queue::Cq;
use endpoint_core::EndMemory;
use indexmap::IndexMap;
use memory_keys::Regions;
use page_pool::PagePool;
use rdma_types::limits::MOST_BYTES;
use rdma_types::{Name, Receive, Refusal};

/// Entries and reserved places reach the capacity of a queue.
pub fn is_full(queue: &Cq) -> bool
    ensures full { result ≡ is_full_at queue.now }
    ensures room { result ≡ false → used_places queue.now < queue.now.capacity }
{
    queue.capacity() as usize <= queue.len() + queue.reserved() as usize
}

/// Reserves a place of the queue at a place.
pub fn reserve(queues: &mut IndexMap<Name, Cq>, place: u32)
    requires room { IfSome (slice_get (values_of queues.old.entries) place)
        (λ q. used_places q < q.capacity) }
    requires there { place < length queues.old.entries }
    ensures { IfSome (slice_get (values_of queues.old.entries) place) (λ q. queues.new.entries
        ≡ set_value_at queues.old.entries place (reserving q)) }
{
    let queue = queues.get_index_mut(place as usize).unwrap();
    queue.reserve().unwrap();
}

/// Why no receive is posted at an end.
fn refusal(
    regions: &Regions,
    queues: &IndexMap<Name, Cq>,
    slot: &EndSlot,
    receive: &Receive,
) -> Option<Refusal>
    requires { slot.now.recv < length queues.now.entries }
    ensures refused { (pool : Pool) (c : Context) (e : End) → c.regions ≡ regions_of pool regions.now → e.domain ≡ slot.now.endpoint.domain
        → e.recv_depth ≡ slot.now.endpoint.recv_depth → e.unused ≡ slot.now.endpoint.recvs.items
        → IfSome (slice_get (values_of queues.now.entries) slot.now.recv) (λ q. is_full c e.recv_cq ≡ is_full_at q)
        → result ≡ first_cause (recv_causes c e receive.now) }
    ensures takes { IfNone result (TakesReceive regions.now queues.now.entries slot.now
        receive.now) }
{
    if receive.length > MOST_BYTES {
        return Some(Refusal::TooLong);
    }
    let place = regions.check_local(
        slot.endpoint.domain,
        receive.lkey,
        receive.local,
        receive.length,
        true,
    );
    if place.is_none() {
        return Some(Refusal::BadKey);
    }
    if slot.endpoint.recvs.len() >= slot.endpoint.recv_depth as usize {
        return Some(Refusal::RqFull);
    }
    let (_, queue) = queues.get_index(slot.recv as usize).unwrap();
    is_full(queue).then_some(Refusal::CqFull)
}

/// The place of a queue pair at which a receive may be posted.
fn admitted(
    regions: &Regions,
    queues: &IndexMap<Name, Cq>,
    ends: &IndexMap<Name, EndSlot>,
    name: Name,
    receive: &Receive,
) -> Result<usize, Refusal>
    requires { All (HasQueues queues.now.entries) ends.now.entries }
    ensures refused { (pool : Pool) (n : Name) (h : Holding) → IsContext pool h → h.regions ≡ regions.now → h.queues ≡ queues.now.entries → h.ends ≡ ends.now.entries
        → result_err result ≡ first_cause (end_causes (context_in pool n h) name (recv_causes (context_in pool n h) (end_at (context_in pool n h) name) receive.now)) }
    ensures place { IfOk result (λ i. position (bytes_eq name) (keys_of ends.now.entries)
        ≡ Some i) }
    ensures there { IfOk result (λ i. i < length ends.now.entries) }
    ensures takes { IfOk result (λ i. IfSome (slice_get ends.now.entries i)
        (λ e. TakesReceive regions.now queues.now.entries e.1 receive.now)) }
{
    let Some(place) = ends.get_index_of(&name) else {
        return Err(Refusal::NoSuch);
    };
    let (_, slot) = ends.get_index(place).unwrap();
    match refusal(regions, queues, slot, receive) {
        Some(refusal) => Err(refusal),
        None => Ok(place),
    }
}

impl ContextState {
    /// Posts a receive. It takes no memory.
    ///
    /// Errors: the first of these causes that holds (this project's choice): `NoSuch` where no queue pair has the name;
    /// `TooLong` for more than 1,048,576 bytes; `BadKey` where the place is not granted; `RqFull` where the unused
    /// receives reach the receive depth; `CqFull` where entries and reserved places reach the capacity of the
    /// completion queue. Nothing has changed then.
    pub fn post_recv(
        &mut self,
        pool: &mut PagePool,
        name: Name,
        receive: &Receive,
    ) -> Result<(), Refusal>
        requires is { IsContext pool.old self.old }
        ensures refused { (n : Name) → result_err result
            ≡ first_cause (end_causes (context_in pool.old n self.old) name (recv_causes (context_in pool.old n self.old) (end_at (context_in pool.old n self.old) name) receive.now)) }
        ensures posted { (n : Name) (d : Device)
            → OnOk result (receives d (context_in pool.old n self.old) (end_at (context_in pool.old n self.old) name) receive.now
            ≡ answers (with_context d (context_in pool.new n self.new)) answer.Done) }
        ensures is { IsContext pool.new self.new }
        ensures moves { Moves pool.old pool.new self.old self.new }
        ensures numbers { (n : Name) → map (λ e. e.number) (context_in pool.new n self.new).ends
            ≡ map (λ e. e.number) (context_in pool.old n self.old).ends }
        ensures err { OnErr result (self.new ≡ self.old) }
        ensures err_pool { OnErr result (pool.new ≡ pool.old) }
    {
        let place = admitted(&self.regions, &self.queues, &self.ends, name, receive)?;
        let slot = self.ends.get_index_mut(place).unwrap();
        reserve(&mut self.queues, slot.recv);
        let memory = EndMemory {
            pool,
            regions: &mut self.regions,
            queues: &mut self.queues,
            send: slot.send,
            recv: slot.recv,
        };
        slot.endpoint.post_recv(*receive, memory).unwrap();
        Ok(())
    }
}
