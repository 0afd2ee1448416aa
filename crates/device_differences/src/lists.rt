//! Lists of plain values, and completion queues.
#![tactic(auto, using(crate::proofs::Found::looked), unfolding(crate::specs::Differing::apart, crate::specs::Differences::receive_difference, crate::specs::Differences::completion_difference, crate::specs::Differences::queue_difference, crate::specs::Differences::reply_difference))]

ghost use Rattle.std.specs.Prelude.{◌≡◌};
ghost use Rattle.endpoint_core.specs.Queues.{queues_of};
ghost use Rattle.device_differences.specs.Differing.{across, between};
ghost use Rattle.device_differences.specs.Shown.{shown_queue};
ghost use Rattle.device_differences.specs.Differences.{completion_difference, queue_difference, receive_difference, reply_difference};

use crate::between::{apart, names, numbers};
use crate::values::{completion_numbers, receive_numbers};
use end_queues::completion_queue::Cq;
use end_queues::work_queues::RecvQueue;
use indexmap::{IndexMap, IndexSet};
use rdma_types::{Completion, Name, Receive};
use transport::atomic_replay::ReplyCache;

/// Two receives.
fn receive(x: &Receive, y: &Receive) -> Option<(u64, u64)>
    ensures { result ≡ receive_difference x.now y.now }
{
    numbers(&receive_numbers(x), &receive_numbers(y))
}

/// Two queues of receives.
pub fn receives(a: &RecvQueue, b: &RecvQueue) -> Option<(u64, u64)>
    ensures { result ≡ across receive_difference a.now.items b.now.items }
{
    for i in 0..a.len().min(b.len()) {
        let x = a.at(i).unwrap();
        let y = b.at(i).unwrap();
        let found = receive(x, y);
        if found.is_some() {
            return found;
        }
    }
    apart(a.len() as u64, b.len() as u64)
}

/// The kept replies of two responders.
pub fn replies(a: &ReplyCache, b: &ReplyCache) -> Option<(u64, u64)>
    ensures { result ≡ across reply_difference a.now b.now }
{
    for i in 0..a.len().min(b.len()) {
        let x = a.at(i).unwrap();
        let y = b.at(i).unwrap();
        let found = reply(x, y);
        if found.is_some() {
            return found;
        }
    }
    apart(a.len() as u64, b.len() as u64)
}

/// Two kept replies, by their numbers and their old values.
fn reply(x: (u64, u64), y: (u64, u64)) -> Option<(u64, u64)>
    ensures { result ≡ reply_difference (record { number = x.0; old = x.1 })
        (record { number = y.0; old = y.1 }) }
{
    numbers(&[x.0, x.1], &[y.0, y.1])
}

/// Two lists of names.
pub fn name_sets(a: &IndexSet<Name>, b: &IndexSet<Name>) -> Option<(u64, u64)>
    ensures { result ≡ across between a.now.keys b.now.keys }
{
    for i in 0..a.len().min(b.len()) {
        let x = a.get_index(i).unwrap();
        let y = b.get_index(i).unwrap();
        let found = names(x, y);
        if found.is_some() {
            return found;
        }
    }
    apart(a.len() as u64, b.len() as u64)
}

/// Two completions.
fn completion(x: &Completion, y: &Completion) -> Option<(u64, u64)>
    ensures { result ≡ completion_difference x.now y.now }
{
    numbers(&completion_numbers(x), &completion_numbers(y))
}

/// The entries of two completion queues.
fn entries(a: &Cq, b: &Cq) -> Option<(u64, u64)>
    ensures { result ≡ across completion_difference a.now.entries b.now.entries }
{
    for i in 0..a.len().min(b.len()) {
        let x = a.at(i).unwrap();
        let y = b.at(i).unwrap();
        let found = completion(x, y);
        if found.is_some() {
            return found;
        }
    }
    apart(a.len() as u64, b.len() as u64)
}

/// Two completion queues, each with its name.
fn queue(x: (&Name, &Cq), y: (&Name, &Cq)) -> Option<(u64, u64)>
    ensures { result ≡ queue_difference (shown_queue (x.entry.0.now, x.entry.1.now))
        (shown_queue (y.entry.0.now, y.entry.1.now)) }
{
    let found = names(x.0, y.0);
    if found.is_some() {
        return found;
    }
    let found = numbers(&[u64::from(x.1.capacity())], &[u64::from(y.1.capacity())]);
    if found.is_some() {
        return found;
    }
    entries(x.1, y.1)
}

/// Two lists of completion queues.
pub fn queues(a: &IndexMap<Name, Cq>, b: &IndexMap<Name, Cq>) -> Option<(u64, u64)>
    ensures { result ≡ across queue_difference (queues_of a.now.entries) (queues_of b.now.entries) }
{
    for i in 0..a.len().min(b.len()) {
        let x = a.get_index(i).unwrap();
        let y = b.get_index(i).unwrap();
        let found = queue(x, y);
        if found.is_some() {
            return found;
        }
    }
    apart(a.len() as u64, b.len() as u64)
}
