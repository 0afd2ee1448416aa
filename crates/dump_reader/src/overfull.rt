//! The rule that a completion queue has room for its entries and for what the queue pairs will put there.

ghost use Rattle.std.specs.Prelude.{◌≡◌, ℕ, ◌+◌, ◌-◌, ◌<◌, ◌≤◌, ◌^◌, ◌++◌, ◌∷◌, length, [], map, min, nat_lt, sum_by, if◌then◌else◌, bytes_eq};
ghost use Rattle.protocol.specs.Dumps.{overfull};
ghost use Rattle.protocol.specs.Images.{name_at, end_of_image};
ghost use Rattle.protocol.specs.Refusals.{count_if, reserved_by};
ghost use Rattle.dump_reader.specs.Groups.{placed};
ghost use Rattle.dump_reader.specs.Ahead.{image_of, queues_of};
ghost use Rattle.dump_reader.specs.Overfull.{queue_at, uses_sends, uses_receives, reserved_at};

use crate::heads::{DumpHead, PlacedQueue};
use crate::lists::Lists;
use protocol::{EndImage, LinkImage, Progress};
use rdma_types::Name;

fn is_queue(queues: &[PlacedQueue], i: u16, name: &Name) -> bool
    ensures { result ≡ bytes_eq (queue_at queues.now i) name.now }
{
    let name = name.as_bytes();
    match queues.get(i as usize) {
        Some(placed) => placed.queue.name.as_bytes() == name,
        None => false,
    }
}

fn sends(end: &EndImage) -> usize
    ensures { result ≡ uses_sends end.now.linked end.now.untold }
{
    match &end.linked {
        None => 0,
        Some(_) => end.untold.len(),
    }
}

fn receives(linked: &Option<LinkImage>) -> usize
    ensures { result ≡ uses_receives linked.now }
{
    match linked {
        None => 0,
        Some(link) => match link.progress {
            Progress::Send { .. } => 1,
            _ => 0,
        },
    }
}

fn if_queue(is_there: bool, n: u64) -> u64
    ensures { result ≡ count_if is_there n }
{
    if is_there { n } else { 0 }
}

/// How many entries one queue pair will put into a queue; u64::MAX stands for all greater numbers.
fn reserved_of(queues: &[PlacedQueue], name: &Name, end: &EndImage) -> u64
    ensures { result ≡ min (2 ^ 64 - 1) (reserved_at queues.now name.now end.now) }
{
    let sent = if_queue(is_queue(queues, end.send_cq, name), sends(end) as u64);
    let received = (end.unused.len() as u64).saturating_add(receives(&end.linked) as u64);
    sent.saturating_add(if_queue(is_queue(queues, end.recv_cq, name), received))
}

/// How many entries the queue pairs will put into a queue.
fn reserved(queues: &[PlacedQueue], name: &Name, ends: &[EndImage]) -> u64
    ensures { result ≡ min (2 ^ 64 - 1) (sum_by (reserved_at queues.now name.now) ends.now) }
{
    match ends {
        [] => 0,
        [end, more @ ..] => {
            reserved_of(queues, name, end).saturating_add(reserved(queues, name, more))
        }
    }
}

fn is_overfull(lists: &Lists, placed: &PlacedQueue) -> bool
    ensures { result ≡ nat_lt placed.now.queue.capacity
        (length placed.now.queue.entries + sum_by
        (reserved_at lists.now.queues.items placed.now.queue.name) lists.now.ends.items) }
{
    let queue = &placed.queue;
    let reserved = reserved(&lists.queues, &queue.name, &lists.ends);
    (queue.entries.len() as u64).saturating_add(reserved) > queue.capacity as u64
}

/// The place of the first capacity that entries and reservations pass.
#[tactic(auto, unfolding(protocol::specs::Dumps::overfull), using(crate::proofs::Reserved::reserved_is))]
pub fn find_overfull(opened: &DumpHead, lists: &Lists, queues: &[PlacedQueue]) -> Option<usize>
    ensures { result
        ≡ overfull (image_of opened.now lists.now.domains.items lists.now.regions.items
        (queues_of lists.now) lists.now.ends.items) (map placed queues.now) }
{
    match queues {
        [] => None,
        [first, more @ ..] => {
            if is_overfull(lists, first) {
                Some(first.place)
            } else {
                find_overfull(opened, lists, more)
            }
        }
    }
}
