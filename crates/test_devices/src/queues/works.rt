//! Queues on values from outside.

use end_queues::work_queues::{QueuedRequest, RecvQueue, SendQueue};
use page_pool::{PageList, PagePool, Payload, PoolFault};
use rdma_types::{Kind, Receive, Request, Shape};
use std::alloc::{AllocError, Global};

fn receive(id: u64) -> Receive {
    Receive {
        id,
        lkey: 0x0100_0002,
        local: 4096,
        length: 64,
    }
}

/// Posts three receives to a queue of two, and a fourth after the first is gone.
fn post_four(queue: &mut RecvQueue) -> ([Result<(), Receive>; 4], (usize, u32)) {
    let first = queue.post(receive(1));
    let second = queue.post(receive(2));
    let third = queue.post(receive(3));
    let sizes = (queue.len(), queue.depth());
    queue.drop_front();
    ([first, second, third, queue.post(receive(4))], sizes)
}

/// The two that are left, and what comes after them.
fn take_three(queue: &mut RecvQueue) -> ([Option<Receive>; 3], Option<Receive>) {
    let second = queue.at(1).copied();
    (
        [queue.drop_front(), queue.drop_front(), queue.drop_front()],
        second,
    )
}

/// Whether a queue is empty, and may end.
fn ends(queue: RecvQueue) -> bool {
    let empty = queue.is_empty();
    if empty {
        queue.destroy_empty();
    }
    empty
}

/// What a queue of two tells as four receives come and go.
fn received(
    alloc: Global,
) -> Result<
    (
        ([Result<(), Receive>; 4], (usize, u32)),
        ([Option<Receive>; 3], Option<Receive>),
        bool,
    ),
    AllocError,
> {
    let mut queue = RecvQueue::make(alloc, 2)?;
    let posts = post_four(&mut queue);
    let takes = take_three(&mut queue);
    Ok((posts, takes, ends(queue)))
}

#[test]
fn receives_leave_in_posting_order(rt: HostRuntime) -> Result<(), AllocError> {
    let (posts, takes, ended) = received(rt.alloc())?;
    assert_eq!(rt; posts, ([Ok(()), Ok(()), Err(receive(3)), Ok(())], (2, 2)));
    assert_eq!(rt;
        takes,
        ([Some(receive(2)), Some(receive(4)), None], Some(receive(4)))
    );
    assert!(rt; ended);
    Ok(())
}

/// A Write of four bytes, which lie at the front of the list.
fn posted(id: u64, list: PageList) -> QueuedRequest {
    QueuedRequest {
        request: Request {
            id,
            shape: Shape {
                kind: Kind::Write,
                length: 4,
                remote: 8192,
                rkey: 0x0200_0003,
                imm: None,
                swap_add: 0,
                compare: 0,
            },
            lkey: 0x0100_0002,
            local: 4096,
            signaled: true,
            fence: false,
        },
        payload: Payload {
            list,
            first: 0,
            length: 4,
        },
    }
}

/// Posts a Write of a new page: the id of one that comes back.
fn post(
    queue: &mut SendQueue,
    pool: &mut PagePool,
    alloc: Global,
    id: u64,
) -> Result<Option<u64>, PoolFault> {
    let list = pool.take(alloc, 1)?;
    Ok(id_of(queue.post(posted(id, list)).err()))
}

/// The id of a request, if there is one.
fn id_of(p: Option<QueuedRequest>) -> Option<u64> {
    p.map(|p| p.request.id)
}

/// Posts three Writes: the id of the last, if it comes back.
fn post_three(
    queue: &mut SendQueue,
    pool: &mut PagePool,
    alloc: Global,
) -> Result<Option<u64>, PoolFault> {
    post(queue, pool, alloc, 1)?;
    post(queue, pool, alloc, 2)?;
    post(queue, pool, alloc, 3)
}

/// How many are left, the id of the second, and the ids that come out.
fn drain(queue: &mut SendQueue) -> (usize, Option<u64>, [Option<u64>; 3]) {
    let count = queue.len();
    let second = queue.at(1).map(|p| p.request.id);
    let first = id_of(queue.drop_front());
    let next = id_of(queue.drop_front());
    (count, second, [first, next, id_of(queue.drop_front())])
}

/// What a queue of two tells after three Writes.
fn drained(
    alloc: Global,
) -> Result<(Option<u64>, (usize, Option<u64>, [Option<u64>; 3])), PoolFault> {
    let mut pool = PagePool::make(alloc, 3)?;
    let mut queue = SendQueue::make(alloc, 2)?;
    let back = post_three(&mut queue, &mut pool, alloc)?;
    Ok((back, drain(&mut queue)))
}

#[test]
fn requests_leave_in_posting_order(rt: HostRuntime) -> Result<(), PoolFault> {
    let told = drained(rt.alloc())?;
    assert_eq!(rt; told, (Some(3), (2, Some(2), [Some(1), Some(2), None])));
    Ok(())
}
