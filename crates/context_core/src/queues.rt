//! The completion queues of a context.

ghost use Rattle.std.specs.Prelude.{◌≡◌, ◌<◌, length, ◌++◌, ◌∷◌, [], false, IfOk, OnErr, OnOk, take};
ghost use Rattle.rdma_types.specs.Causes.{first_cause};
ghost use Rattle.rdma_types.specs.Lists.{has_name};
ghost use Rattle.end_queues.specs.Completions.{polled, unreserved};
ghost use Rattle.endpoint_core.specs.Queues.{queues_of};
ghost use Rattle.protocol.specs.State.{Context};
ghost use Rattle.context_core.specs.Causes.{poll_causes, queue_causes};
ghost use Rattle.context_core.specs.Faults.{refusal_of};
ghost use Rattle.context_core.specs.Queues.{IsPolled};

use crate::ContextFault;
use end_queues::completion_queue::Cq;
use indexmap::IndexMap;
use rdma_types::{Completion, Items, Name, Refusal, WcKind, WcStatus};
use std::alloc::{AllocError, Global};

/// How many completion queues a context may have (this project's choice).
pub const MOST_QUEUES: usize = 64;

/// Why no completion queue of this name is made.
fn refusal(queues: &IndexMap<Name, Cq>, name: Name) -> Option<Refusal>
    ensures { (c : Context) → c.queues ≡ queues_of queues.now.entries
        → result ≡ first_cause (queue_causes c name) }
{
    if queues.contains_key(&name) {
        return Some(Refusal::NumberTaken);
    }
    (queues.len() >= MOST_QUEUES).then_some(Refusal::TooMany)
}

/// Makes an empty completion queue behind the others, for `capacity` entries. Errors: refused for the first of these
/// causes that holds (this project's choice): `NumberTaken` where a completion queue has the name, `TooMany` where
/// there are 64 of them; or `OutOfMemory`. The queues are then as they were.
pub fn make(
    queues: &mut IndexMap<Name, Cq>,
    alloc: Global,
    name: Name,
    capacity: u32,
) -> Result<(), ContextFault>
    ensures refused { (c : Context) → c.queues ≡ queues_of queues.old.entries
        → refusal_of result ≡ first_cause (queue_causes c name) }
    ensures made { OnOk result (queues.new.entries
        ≡ queues.old.entries ++ (name, unreserved capacity []) ∷ []) }
    ensures bounded { OnOk result (length queues.old.entries < 64) }
    ensures absent { OnOk result (has_name (λ q. q.name) name (queues_of queues.old.entries)
        ≡ false) }
    ensures err { OnErr result (queues.new.entries ≡ queues.old.entries) }
{
    if let Some(refusal) = refusal(queues, name) {
        return Err(refusal.into());
    }
    queues.reserve(1)?;
    let queue = Cq::make(alloc, capacity)?;
    queues.insert(name, queue).unwrap();
    Ok(())
}

/// A completion that no call hands out.
const NOTHING: Completion = Completion {
    qp: 0,
    id: 0,
    kind: WcKind::Send,
    status: WcStatus::Success,
    length: 0,
    imm: None,
};

/// Hands out the oldest entries of a queue, as many as there are or as are asked for.
fn polled(queue: &mut Cq, alloc: Global, most: u32) -> Result<Items<Completion>, AllocError>
    ensures entries { IfOk result (λ entries. entries ≡ take most queue.old.entries) }
    ensures rest { OnOk result (queue.new ≡ polled queue.old most) }
    ensures err { OnErr result (queue.new ≡ queue.old) }
{
    let count = (most as usize).min(queue.len());
    let mut out = vec![in alloc; NOTHING; count]?;
    queue.poll_into(&mut out);
    Ok(Items::new(out))
}

/// Hands out the oldest completions of the queue with a name, `most` at the most. Errors: refused with `NoSuch` exactly
/// where no queue has the name; or `OutOfMemory`. The queues are then as they were.
pub fn poll(
    queues: &mut IndexMap<Name, Cq>,
    alloc: Global,
    name: Name,
    most: u32,
) -> Result<Items<Completion>, ContextFault>
    ensures refused { (c : Context) → c.queues ≡ queues_of queues.old.entries
        → refusal_of result ≡ first_cause (poll_causes c name) }
    ensures polled { IfOk result (λ entries. IsPolled queues.old.entries queues.new.entries name
        most entries) }
    ensures err { OnErr result (queues.new.entries ≡ queues.old.entries) }
{
    let Some(place) = queues.get_index_of(&name) else {
        return Err(Refusal::NoSuch.into());
    };
    let queue = queues.get_index_mut(place).unwrap();
    let entries = polled(queue, alloc, most)?;
    Ok(entries)
}
