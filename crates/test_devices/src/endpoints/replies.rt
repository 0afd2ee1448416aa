//! A responder on datagrams as they arrive, at MTU 256.

ghost use Rattle.std.specs.Prelude.{◌≡◌, ◌≤◌, IfOk};
ghost use Rattle.memory_keys.specs.Regions.{AreHeld};
ghost use Rattle.protocol.specs.Wire as wire;
ghost use Rattle.responder.specs.Receiving.{waiting};
ghost use Rattle.responder.specs.Sound.{IsSound};

use end_queues::completion_queue::Cq;
use end_queues::work_queues::RecvQueue;
use memory_keys::{RegionHead, Regions};
use page_pool::PagePool;
use rdma_types::{DropReason, Keys, Name, Rights, Terms};
use responder::{Reply, Responder, soundness_stays};
use roce_headers::decode;
use std::alloc::Global;
use std::test::Fail;

const TERMS: Terms = Terms {
    mtu: 256,
    own_start: 0,
    peer_start: 0xFF_FFFF,
    retry: 1,
    rnr: 0,
    reads: 1,
};

/// A responder and what it works on.
#[derive(Drop)]
struct Place {
    pool: PagePool,
    regions: Regions,
    domain: Name,
    recvs: RecvQueue,
    cq: Cq,
    responder: Responder,
}

/// A pool, and in it a region of 512 bytes from address 4096, which the key 0100_0003 opens.
fn memory(alloc: Global, domain: Name) -> Result<(PagePool, Regions), Fail>
    ensures { IfOk result (λ m. AreHeld m.0 m.1) }
{
    let name = Name::read(b"n").ok_or("a name")?;
    let mut pool = PagePool::make(alloc, 1)?;
    let mut regions = Regions::make(alloc);
    let head = RegionHead {
        name,
        domain,
        base: 4096,
        length: 512,
        rights: Rights(15),
        keys: Keys {
            local: 0x0100_0002,
            remote: 0x0100_0003,
        },
    };
    regions.register(&mut pool, alloc, head)?;
    Ok((pool, regions))
}

/// That region, and no receive.
fn make_place(alloc: Global) -> Result<Place, Fail>
    ensures held { IfOk result (λ p. AreHeld p.pool p.regions) }
    ensures sound { IfOk result (λ p. IsSound p.regions p.domain p.responder p.recvs.items) }
    ensures reserved { IfOk result (λ p. waiting p.responder.receiver p.recvs.items
        ≤ p.cq.reserved) }
{
    soundness_stays();
    let domain = Name::read(b"p").ok_or("a name")?;
    let recvs = RecvQueue::make(alloc, 1)?;
    let cq = Cq::make(alloc, 1)?;
    let (pool, regions) = memory(alloc, domain)?;
    Ok(Place {
        pool,
        regions,
        domain,
        recvs,
        cq,
        responder: Responder::make(&TERMS),
    })
}

/// The opcode of a request.
#[tactic(auto, unfolding(protocol::specs::Wire::is_request))]
fn is_request(opcode: u8) -> bool
    ensures { result ≡ wire.is_request opcode }
{
    opcode <= 0x0C || opcode == 0x13 || opcode == 0x14
}

/// A request that arrives; None where it is none.
fn arrive(p: &mut Place, bytes: &[u8]) -> Option<Reply>
    requires held { AreHeld p.old.pool p.old.regions }
    requires sound { IsSound p.old.regions p.old.domain p.old.responder p.old.recvs.items }
    requires reserved { waiting p.old.responder.receiver p.old.recvs.items ≤ p.old.cq.reserved }
    ensures held { AreHeld p.new.pool p.new.regions }
    ensures sound { IsSound p.new.regions p.new.domain p.new.responder p.new.recvs.items }
    ensures reserved { waiting p.new.responder.receiver p.new.recvs.items ≤ p.new.cq.reserved }
{
    let Ok(d) = decode(bytes) else {
        return None;
    };
    if !is_request(d.opcode) {
        return None;
    }
    Some(
        p.responder.take_request(
            &mut p.pool,
            &mut p.regions,
            p.domain,
            &mut p.recvs,
            &mut p.cq,
            7,
            &d,
        ),
    )
}

/// What is replied to four requests.
fn replies(p: &mut Place, all: [&[u8]; 4]) -> [Option<Reply>; 4]
    requires held { AreHeld p.old.pool p.old.regions }
    requires sound { IsSound p.old.regions p.old.domain p.old.responder p.old.recvs.items }
    requires reserved { waiting p.old.responder.receiver p.old.recvs.items ≤ p.old.cq.reserved }
{
    [
        arrive(p, all[0]),
        arrive(p, all[1]),
        arrive(p, all[2]),
        arrive(p, all[3]),
    ]
}

/// The same of a new place, and then the number that is expected, how many replies are kept, and whether a receive is cut off.
fn told(alloc: Global, all: [&[u8]; 4]) -> Result<([Option<Reply>; 4], u64, usize, bool), Fail> {
    let mut p = make_place(alloc)?;
    let told = replies(&mut p, all);
    let expected = p.responder.parts().expected;
    let kept = p.responder.kept().len();
    Ok((told, expected, kept, p.responder.cut().is_some()))
}

/// A FetchAdd of 5 to the word at address 4096: packet 0, whose wire number is the partner's first.
const ADD: [u8; 44] = [
    0x14, 0, 0xFF, 0xFF, 0, 0, 0, 7, 0x80, 0xFF, 0xFF, 0xFF, 0, 0, 0, 0, 0, 0, 0x10, 0, 1, 0, 0, 3,
    0, 0, 0, 0, 0, 0, 0, 5, 0, 0, 0, 0, 0, 0, 0, 0, 0, 0, 0, 0,
];

/// A SEND Only of no bytes: packet 1, whose wire number is 0.
const SEND: [u8; 16] = [0x04, 0, 0xFF, 0xFF, 0, 0, 0, 7, 0x80, 0, 0, 0, 0, 0, 0, 0];

#[test]
fn a_repeated_atomic_is_not_executed(rt: HostRuntime) -> Result<(), Fail> {
    let old = Some(Reply::AtomicOld { number: 0, old: 0 });
    let told = told(rt.alloc(), [&ADD, &ADD, &ADD, &ADD])?;
    assert_eq!(rt; told, ([old; 4], 1, 1, false));
    Ok(())
}

#[test]
fn a_request_ahead_is_told_once(rt: HostRuntime) -> Result<(), Fail> {
    let wanted = [
        Some(Reply::SequenceNak),
        Some(Reply::Silent(DropReason::NakSent)),
        Some(Reply::AtomicOld { number: 0, old: 0 }),
        Some(Reply::NotReady),
    ];
    let told = told(rt.alloc(), [&SEND, &SEND, &ADD, &SEND])?;
    assert_eq!(rt; told, (wanted, 1, 1, false));
    Ok(())
}
