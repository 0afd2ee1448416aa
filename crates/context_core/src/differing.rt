//! Where two contexts differ.

ghost use Rattle.std.specs.Prelude.{◌≡◌, ◌<◌, All, length, map};
ghost use Rattle.device_differences.specs.Differing.{across};
ghost use Rattle.device_differences.specs.Differences.{context_difference, end_difference};
ghost use Rattle.context_core.specs.Payloads.{HasPayloads};
ghost use Rattle.context_core.specs.Context.{HasQueues, IsContext, context_in, end_of, queue_name as name_at};

use crate::{ContextState, EndSlot};
use device_differences::{apart, name_sets, names, numbers, queues, regions, work};
use end_queues::completion_queue::Cq;
use indexmap::IndexMap;
use page_pool::PagePool;
use rdma_types::Name;

/// The name of the completion queue at a place.
fn queue_name(queues: &IndexMap<Name, Cq>, place: u32) -> Name
    requires { place < length queues.now.entries }
    ensures { result ≡ name_at queues.now.entries place }
{
    let (name, _) = queues.get_index(place as usize).unwrap();
    *name
}

/// Two queue pairs, each with its name.
#[tactic(auto, using(device_differences::proofs::Found::looked), unfolding(device_differences::specs::Differences::end_difference))]
fn slots(
    pool: &PagePool,
    queues: &IndexMap<Name, Cq>,
    x: (&Name, &EndSlot),
    other_pool: &PagePool,
    other_queues: &IndexMap<Name, Cq>,
    y: (&Name, &EndSlot),
) -> Option<(u64, u64)>
    requires placed { HasQueues queues.now.entries (x.0.now, x.1.now) }
    requires other_placed { HasQueues other_queues.now.entries (y.0.now, y.1.now) }
    requires held { HasPayloads pool.now (x.0.now, x.1.now) }
    requires other_held { HasPayloads other_pool.now (y.0.now, y.1.now) }
    ensures { result
        ≡ end_difference (end_of pool.now queues.now.entries (x.entry.0.now, x.entry.1.now))
        (end_of other_pool.now other_queues.now.entries (y.entry.0.now, y.entry.1.now)) }
{
    let (name, a) = x;
    let (other_name, b) = y;
    let found = names(name, other_name);
    if found.is_some() {
        return found;
    }
    let found = numbers(
        &[u64::from(a.endpoint.number)],
        &[u64::from(b.endpoint.number)],
    );
    if found.is_some() {
        return found;
    }
    let found = names(&a.endpoint.domain, &b.endpoint.domain);
    if found.is_some() {
        return found;
    }
    let found = names(
        &queue_name(queues, a.send),
        &queue_name(other_queues, b.send),
    );
    if found.is_some() {
        return found;
    }
    let found = names(
        &queue_name(queues, a.recv),
        &queue_name(other_queues, b.recv),
    );
    if found.is_some() {
        return found;
    }
    work(pool, &a.endpoint, other_pool, &b.endpoint)
}

/// Two lists of queue pairs, each with the completion queues of its context.
fn ends(
    pool: &PagePool,
    a: &IndexMap<Name, EndSlot>,
    queues: &IndexMap<Name, Cq>,
    other_pool: &PagePool,
    b: &IndexMap<Name, EndSlot>,
    other_queues: &IndexMap<Name, Cq>,
) -> Option<(u64, u64)>
    requires placed { All (HasQueues queues.now.entries) a.now.entries }
    requires other_placed { All (HasQueues other_queues.now.entries) b.now.entries }
    requires held { All (HasPayloads pool.now) a.now.entries }
    requires other_held { All (HasPayloads other_pool.now) b.now.entries }
    ensures { result
        ≡ across end_difference (map (end_of pool.now queues.now.entries) a.now.entries)
        (map (end_of other_pool.now other_queues.now.entries) b.now.entries) }
{
    for i in 0..a.len().min(b.len()) {
        let x = a.get_index(i).unwrap();
        let y = b.get_index(i).unwrap();
        let found = slots(pool, queues, x, other_pool, other_queues, y);
        if found.is_some() {
            return found;
        }
    }
    apart(a.len() as u64, b.len() as u64)
}

impl ContextState {
    /// Where two contexts of these names differ: the two values of the first field in which they do; None exactly where
    /// they are equal. It takes no memory.
    #[tactic(auto, using(device_differences::proofs::Found::looked), unfolding(device_differences::specs::Differences::context_difference, crate::specs::Context::context_in))]
    pub fn difference(
        &self,
        pool: &PagePool,
        name: &Name,
        other: &ContextState,
        other_pool: &PagePool,
        other_name: &Name,
    ) -> Option<(u64, u64)>
        requires is { IsContext pool.now self.now }
        requires other_is { IsContext other_pool.now other.now }
        ensures { result ≡ context_difference (context_in pool.now name.now self.now)
            (context_in other_pool.now other_name.now other.now) }
    {
        let found = names(name, other_name);
        if found.is_some() {
            return found;
        }
        let found = name_sets(&self.domains, &other.domains);
        if found.is_some() {
            return found;
        }
        let found = regions(pool, &self.regions, other_pool, &other.regions);
        if found.is_some() {
            return found;
        }
        let found = queues(&self.queues, &other.queues);
        if found.is_some() {
            return found;
        }
        ends(
            pool,
            &self.ends,
            &self.queues,
            other_pool,
            &other.ends,
            &other.queues,
        )
    }
}
