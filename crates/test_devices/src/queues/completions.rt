//! Queues shared by queue pairs, on values from outside.

use end_queues::completion_queue::{Cq, CqFull};
use rdma_types::{Completion, WcKind, WcStatus};
use std::alloc::{AllocError, Global};

fn completion(qp: u32, id: u64) -> Completion {
    Completion {
        qp,
        id,
        kind: WcKind::Write,
        status: WcStatus::Success,
        length: 4,
        imm: None,
    }
}

/// Puts a completion, where a place is taken for it.
fn put(queue: &mut Cq, c: Completion) {
    if queue.reserved() > 0 {
        queue.push(c);
    }
}

/// Gives a place back, where one is taken.
fn give_back(queue: &mut Cq) {
    if queue.reserved() > 0 {
        queue.unreserve();
    }
}

/// Takes places by turns: a second one, one beside a completion, and one that was given back.
fn reserved(queue: &mut Cq) -> [Result<(), CqFull>; 5] {
    let first = queue.reserve();
    let second = queue.reserve();
    put(queue, completion(0x01_0001, 7));
    let beside = queue.reserve();
    queue.poll_into(&mut [completion(0, 0); 2]);
    let third = queue.reserve();
    give_back(queue);
    [first, second, beside, third, queue.reserve()]
}

#[test]
fn two_queue_pairs_share_one_place(rt: HostRuntime) -> Result<(), AllocError> {
    let mut queue = Cq::make(rt.alloc(), 1)?;
    let told = (reserved(&mut queue), queue.capacity());
    assert_eq!(rt;
        told,
        ([Ok(()), Err(CqFull), Err(CqFull), Ok(()), Ok(())], 1)
    );
    Ok(())
}

/// Takes the oldest two, and tells the third, and how many are left.
fn polled(queue: &mut Cq) -> ([Completion; 2], Option<Completion>, usize) {
    let third = queue.at(2).copied();
    let mut out = [completion(0, 0); 2];
    queue.poll_into(&mut out);
    (out, third, queue.len())
}

/// A copy of a queue of three completions.
fn copied(alloc: Global) -> Result<Cq, AllocError> {
    let held = [completion(1, 10), completion(2, 20), completion(1, 30)];
    let queue = Cq::from_entries(alloc, 4, &held)?;
    queue.copy(alloc)
}

#[test]
fn the_oldest_come_first(rt: HostRuntime) -> Result<(), AllocError> {
    let mut queue = copied(rt.alloc())?;
    let told = (polled(&mut queue), queue.is_empty());
    let oldest = [completion(1, 10), completion(2, 20)];
    assert_eq!(rt; told, ((oldest, Some(completion(1, 30)), 1), false));
    Ok(())
}
