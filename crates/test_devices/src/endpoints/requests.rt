//! A requester on values from outside: the rows of the table in the InfiniBand Architecture Specification 9.7, at MTU 256.

ghost use Rattle.std.specs.Prelude.{◌≡◌, ◌^◌, ◌<◌, IfOk};

use end_queues::work_queues::{QueuedRequest, SendQueue};
use page_pool::{PagePool, Payload, PoolFault};
use rdma_types::{Kind, Request, Shape, Terms, WcStatus};
use requester::{Expiry, Requester, RequesterParts, ResponseEffect, Transmit};
use roce_headers::{Aeth, Datagram, Syndrome};
use std::alloc::{AllocError, Global};
use transport::segmenter::span_of;

const TERMS: Terms = Terms {
    mtu: 256,
    own_start: 0xFF_FFFF,
    peer_start: 0,
    retry: 1,
    rnr: 0,
    reads: 1,
};

/// A signaled request of this kind and length.
fn request(id: u64, kind: Kind, length: u32, fence: bool) -> Request {
    Request {
        id,
        shape: Shape {
            kind,
            length,
            remote: 8192,
            rkey: 0x0200_0003,
            imm: None,
            swap_add: 0,
            compare: 0,
        },
        lkey: 0x0100_0002,
        local: 4096,
        signaled: true,
        fence,
    }
}

/// A response to packet `n`, where numbering began at the last wire number.
fn response(opcode: u8, n: u32, syndrome: Syndrome, payload: &[u8]) -> Datagram<'_>
    ensures { result.psn < 2 ^ 24 }
{
    Datagram {
        opcode,
        dest: 1,
        ack_request: false,
        psn: (n % 0x100_0000 + 0xFF_FFFF) % 0x100_0000,
        reth: None,
        imm: None,
        aeth: Some(Aeth { syndrome, msn: 0 }),
        atomic: None,
        old: None,
        resume: None,
        payload,
    }
}

/// Posts a request with no payload.
fn post(
    requester: &mut Requester,
    pool: &mut PagePool,
    alloc: Global,
    request: Request,
) -> Result<(), PoolFault>
    requires mtu { requester.old.terms.mtu ≡ 256 }
    ensures mtu { requester.new.terms.mtu ≡ 256 }
{
    if requester.end() >= 1000 || span_of(&request.shape, 256) >= 1000 {
        return Err(PoolFault::NoPage);
    }
    let list = pool.take(alloc, 1)?;
    let payload = Payload {
        list,
        first: 0,
        length: 0,
    };
    requester
        .post(QueuedRequest { request, payload })
        .map_err(|_| PoolFault::NoPage)
}

/// Posts a Write of two pieces, a Read of two pieces, and a fenced Write.
fn post_three(
    requester: &mut Requester,
    pool: &mut PagePool,
    alloc: Global,
) -> Result<(), PoolFault>
    requires mtu { requester.old.terms.mtu ≡ 256 }
{
    post(requester, pool, alloc, request(1, Kind::Write, 300, false))?;
    post(requester, pool, alloc, request(2, Kind::Read, 300, false))?;
    post(requester, pool, alloc, request(3, Kind::Write, 4, true))
}

/// A requester without requests.
fn idle(alloc: Global) -> Result<Requester, AllocError>
    ensures mtu { IfOk result (λ r. r.terms.mtu ≡ 256) }
{
    let queue = SendQueue::make(alloc, 3)?;
    Ok(Requester::make(&TERMS, queue))
}

/// A requester with three requests.
fn posted(alloc: Global) -> Result<Requester, PoolFault> {
    let mut requester = idle(alloc)?;
    let mut pool = PagePool::make(alloc, 3)?;
    post_three(&mut requester, &mut pool, alloc)?;
    Ok(requester)
}

/// The number and the opcode of the next packet.
fn sent(requester: &mut Requester) -> Option<(u64, u8)> {
    match requester.transmit() {
        Transmit::Sent { number, head, .. } => Some((number, head.opcode)),
        _ => None,
    }
}

/// The id of the next request that is finished.
fn told(requester: &mut Requester) -> Option<u64> {
    requester.next_told().map(|p| p.request.id)
}

/// An acknowledge of all packets stops at the Read, whose bytes have not landed: what it does, the oldest packet that is not
/// acknowledged, and what is finished.
fn acknowledge(requester: &mut Requester) -> (ResponseEffect, u64, [Option<u64>; 2]) {
    let effect = requester.take_response(&response(0x11, 3, Syndrome::Ack, &[]));
    let una = requester.parts().una;
    (effect, una, [told(requester), told(requester)])
}

/// What the first response to the Read does, the same again, and the last.
fn land(requester: &mut Requester) -> [ResponseEffect; 3] {
    let bytes = [7; 256];
    let first = response(0x0D, 2, Syndrome::Ack, &bytes[..]);
    let last = response(0x0F, 3, Syndrome::Ack, &bytes[..44]);
    [
        requester.take_response(&first),
        requester.take_response(&first),
        requester.take_response(&last),
    ]
}

/// What a requester tells as its packets go out and responses come back.
#[derive(Clone, Copy, Debug, PartialEq, Eq)]
struct Exchange {
    sent: [Option<(u64, u8)>; 3],
    fenced: Transmit,
    acknowledged: (ResponseEffect, u64, [Option<u64>; 2]),
    landed: [ResponseEffect; 3],
    told: Option<u64>,
    last: Option<(u64, u8)>,
}

fn carry(requester: &mut Requester) -> Exchange {
    Exchange {
        sent: [sent(requester), sent(requester), sent(requester)],
        fenced: requester.transmit(),
        acknowledged: acknowledge(requester),
        landed: land(requester),
        told: told(requester),
        last: sent(requester),
    }
}

/// The end of the numbers of three requests, and what a requester tells of them.
fn exchanged(alloc: Global) -> Result<(u64, Exchange), PoolFault> {
    let mut requester = posted(alloc)?;
    Ok((requester.end(), carry(&mut requester)))
}

#[test]
fn packets_go_out_and_responses_come_back(rt: HostRuntime) -> Result<(), PoolFault> {
    let wanted = Exchange {
        sent: [Some((0, 0x06)), Some((1, 0x08)), Some((2, 0x0C))],
        fenced: Transmit::Fenced,
        acknowledged: (ResponseEffect::Acked, 2, [Some(1), None]),
        landed: [
            ResponseEffect::Landed { index: 0, off: 0 },
            ResponseEffect::Useless,
            ResponseEffect::Landed { index: 0, off: 256 },
        ],
        told: Some(2),
        last: Some((4, 0x0A)),
    };
    assert_eq!(rt; exchanged(rt.alloc())?, (5, wanted));
    Ok(())
}

/// What expiries before the first packet, after it, and after it was sent again are counted as.
fn expire(requester: &mut Requester) -> [Expiry; 3] {
    let before = requester.expire();
    sent(requester);
    let first = requester.expire();
    sent(requester);
    [before, first, requester.expire()]
}

/// What an RNR NAK does when no wait is left, whether the wait is over, and the request that is cut off.
fn wait(requester: &mut Requester) -> (ResponseEffect, bool, Option<u64>) {
    let effect = requester.take_response(&response(0x11, 0, Syndrome::Rnr, &[]));
    let over = requester.rnr_over();
    (effect, over, requester.cut().map(|p| p.request.id))
}

/// What expiries and the wait of a requester do, and its numbers at the end.
fn ended(
    alloc: Global,
) -> Result<
    (
        [Expiry; 3],
        (ResponseEffect, bool, Option<u64>),
        RequesterParts,
    ),
    PoolFault,
> {
    let mut requester = posted(alloc)?;
    let expiries = expire(&mut requester);
    let waited = wait(&mut requester);
    Ok((expiries, waited, requester.parts()))
}

#[test]
fn expiries_and_waits_end_an_end(rt: HostRuntime) -> Result<(), PoolFault> {
    let expiries = [Expiry::NotCounted, Expiry::Counted(1), Expiry::Spent];
    let waited = (ResponseEffect::Ended(WcStatus::RnrExceeded), false, Some(1));
    let parts = RequesterParts {
        first: 2,
        una: 5,
        next: 5,
        top: 5,
        spent: 0,
        waits: 0,
        rnr_wait: false,
    };
    assert_eq!(rt; ended(rt.alloc())?, (expiries, waited, parts));
    Ok(())
}
