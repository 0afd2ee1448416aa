//! Queue pairs made.

ghost use Rattle.std.specs.Prelude.{◌≡◌, ◌≤◌, Some, false, IfOk, IfSome, OnErr, OnOk, is_none, length};
ghost use Rattle.std.specs.Map.{keys_of};
ghost use Rattle.std.specs.Result.{result_err};
ghost use Rattle.rdma_types.specs.Causes.{first_cause};
ghost use Rattle.rdma_types.specs.Limits.{most_queues};
ghost use Rattle.rdma_types.specs.Lists.{has_name, has_word};
ghost use Rattle.endpoint_core.specs.Queues.{queues_of};
ghost use Rattle.protocol.specs.Refusals.{lacks};
ghost use Rattle.context_core.specs.Faults.{refusal_of};
ghost use Rattle.context_core.specs.NewEnds.{AreParts, IsMade, IsPlaceOf, lacks_parts, make_causes, number_causes};

use crate::ends::append;
use crate::queues::MOST_QUEUES;
use crate::{ContextFault, EndSlot, NewEnd};
use end_queues::completion_queue::Cq;
use endpoint_core::Endpoint;
use indexmap::{IndexMap, IndexSet};
use rdma_types::{Name, Refusal};
use std::alloc::Global;

/// How many queue pairs a context may have (this project's choice).
const MOST_ENDS: usize = 64;

/// What a new queue pair names: its domain, and its completion queues by their places.
#[derive(Drop)]
struct Parts {
    domain: Name,
    send: u32,
    recv: u32,
}

/// The place of the completion queue with a name, where it is there.
fn place_of(queues: &IndexMap<Name, Cq>, name: Option<Name>) -> Option<u32>
    ensures found { length queues.now.entries ≤ most_queues
        → is_none result
        ≡ lacks (λ n. has_name (λ q. q.name) n (queues_of queues.now.entries)) name }
    ensures place { IfSome result (IsPlaceOf queues.now.entries name) }
{
    let place = queues.get_index_of(&name?)?;
    if place >= MOST_QUEUES {
        return None;
    }
    Some(place as u32)
}

/// What a new queue pair names, where all of it is there.
fn parts_of(domains: &IndexSet<Name>, queues: &IndexMap<Name, Cq>, new: &NewEnd) -> Option<Parts>
    ensures found { length queues.now.entries ≤ most_queues
        → is_none result ≡ lacks_parts domains.now.keys queues.now.entries new.now }
    ensures parts { IfSome result (AreParts queues.now.entries new.now) }
{
    let domain = new.domain?;
    if !domains.contains(&domain) {
        return None;
    }
    let send = place_of(queues, new.send_cq)?;
    let recv = place_of(queues, new.recv_cq)?;
    Some(Parts { domain, send, recv })
}

/// The number that a new queue pair has, where it is allowed.
fn number_for(
    ends: &IndexMap<Name, EndSlot>,
    name: Name,
    number: Option<u32>,
) -> Result<u32, Refusal>
    ensures refused { result_err result ≡ first_cause (number_causes ends.now.entries name number) }
    ensures number { IfOk result (λ k. number ≡ Some k) }
    ensures absent { OnOk result (has_word name (keys_of ends.now.entries) ≡ false) }
{
    if ends.contains_key(&name) {
        return Err(Refusal::NumberTaken);
    }
    match number {
        Some(number) if ends.len() < MOST_ENDS => Ok(number),
        _ => Err(Refusal::TooMany),
    }
}

/// Why [`make`] makes no such queue pair, besides being out of memory.
pub fn refusal(
    domains: &IndexSet<Name>,
    queues: &IndexMap<Name, Cq>,
    ends: &IndexMap<Name, EndSlot>,
    new: &NewEnd,
    number: Option<u32>,
) -> Option<Refusal>
    ensures { length queues.now.entries ≤ most_queues
        → result
        ≡ first_cause (make_causes domains.now.keys queues.now.entries ends.now.entries new.now
        number) }
{
    let Some(_parts) = parts_of(domains, queues, new) else {
        return Some(Refusal::NoSuch);
    };
    number_for(ends, new.name, number).err()
}

/// Makes a queue pair in Init behind the others, with this number. Errors: refused for the first of these causes that
/// holds (this project's choice): `NoSuch` where the domain or a completion queue is not there, `NumberTaken` where a
/// queue pair has the name, `TooMany` where there are 64 queue pairs or no number is given; or `OutOfMemory`. The queue
/// pairs are then as they were.
pub fn make(
    domains: &IndexSet<Name>,
    queues: &IndexMap<Name, Cq>,
    ends: &mut IndexMap<Name, EndSlot>,
    alloc: Global,
    new: &NewEnd,
    number: Option<u32>,
) -> Result<(), ContextFault>
    ensures refused { length queues.now.entries ≤ most_queues
        → refusal_of result
        ≡ first_cause (make_causes domains.now.keys queues.now.entries ends.old.entries new.now
        number) }
    ensures made { OnOk result (IsMade queues.now.entries ends.old.entries ends.new.entries new.now
        number) }
    ensures err { OnErr result (ends.new.entries ≡ ends.old.entries) }
{
    let Some(parts) = parts_of(domains, queues, new) else {
        return Err(Refusal::NoSuch.into());
    };
    let number = number_for(ends, new.name, number)?;
    ends.reserve(1)?;
    let endpoint = Endpoint::make(alloc, number, parts.domain, new.send_depth, new.recv_depth)?;
    let slot = EndSlot {
        send: parts.send,
        recv: parts.recv,
        endpoint,
    };
    append(ends, new.name, slot);
    Ok(())
}
