//! Connections and ends that come of an image.

ghost use Rattle.std.specs.Prelude.{ℕ, ◌≡◌, ◌<◌, ◌≤◌, [], Some, All, AllPairs, IfOk, OnErr, length, map};
ghost use Rattle.rdma_types.specs.Limits.{most_kept};
ghost use Rattle.memory_keys.specs.Regions.{AreHeld};
ghost use Rattle.protocol.specs.Images.{local_key_at, name_at, progress_of_image};
ghost use Rattle.protocol.specs.Lawful.{IsLawfulEnd, IsLawfulLink, IsLawfulProgress};
ghost use Rattle.protocol.specs.declared.images.EndImage.{EndImage};
ghost use Rattle.responder.specs.Receiving.{progress_of};
ghost use Rattle.context_core.specs.Coming.{IsAlike, IsEndAfter, MayCome, MayMove, link_after, moves_after, numbers_after, used_of_image};

use crate::requests::send_queue;
use end_queues::work_queues::{RecvQueue, SendQueue};
use endpoint_core::{EndLink, Endpoint};
use memory_keys::{RegionRange, Regions};
use page_pool::PagePool;
use protocol::{ContextImage, EndImage, KeptReply, LinkImage, Progress, RegionImage};
use rdma_types::Receive;
use requester::{Requester, RequesterParts};
use responder::{Flow, Responder, ResponderParts};
use std::alloc::{AllocError, Global};
use transport::atomic_replay::ReplyCache;
use transport::move_core::{MoveState, Phase};

/// The unused receives of an end.
fn recv_queue(alloc: Global, depth: u32, images: &[Receive]) -> Result<RecvQueue, AllocError>
    requires { length images.now ≤ depth }
    ensures { IfOk result (λ queue. queue ≡ record { depth = depth; items = images.now }) }
{
    let mut queue = RecvQueue::make(alloc, depth)?;
    for receive in images {
        queue.post(*receive).unwrap();
    }
    Ok(queue)
}

/// The kept replies of a responder.
fn kept_of(images: &[KeptReply]) -> ReplyCache
    requires bounded { length images.now ≤ most_kept }
    requires rise { AllPairs (λ a b. a.number < b.number) images.now }
    ensures { result ≡ images.now }
{
    let mut kept = ReplyCache::make();
    for reply in images {
        kept.put(reply.number, reply.old);
    }
    kept
}

/// The message in progress, at the local key of its region.
fn flow_of(image: &ContextImage, progress: &Progress) -> Flow
    requires { (domain : ℕ) × (mtu : ℕ) × IsLawfulProgress image.now domain mtu progress.now }
    ensures { progress_of result ≡ progress_of_image image.now.regions progress.now }
{
    match *progress {
        Progress::Idle => Flow::Idle,
        Progress::Send { done, receive } => Flow::Send { done, receive },
        Progress::Write {
            region,
            off,
            length,
            done,
        } => {
            let spot = RegionRange {
                region: local_key(image.regions.as_slice(), region),
                off,
                length,
            };
            Flow::Write { spot, done }
        }
    }
}

/// The local key of the region at a place.
fn local_key(regions: &[RegionImage], place: u16) -> u32
    requires { place < length regions.now }
    ensures { result ≡ local_key_at regions.now place }
{
    regions[place as usize].keys.local
}

/// How many receives the message in progress uses.
pub fn used(linked: &Option<LinkImage>) -> u32
    ensures value { result ≡ used_of_image linked.now }
    ensures bounded { result ≤ 1 }
{
    match linked {
        Some(link) if matches!(link.progress, Progress::Send { .. }) => 1,
        _ => 0,
    }
}

/// The numbers of a requester after a move: all is sent again from the oldest unacknowledged number on.
fn numbers_of(link: &LinkImage) -> RequesterParts
    ensures { result ≡ numbers_after link.now }
{
    RequesterParts {
        first: link.first,
        una: link.una,
        next: if link.ended { link.next } else { link.una },
        top: link.top,
        spent: link.spent,
        waits: link.waits,
        rnr_wait: link.ended && link.rnr_wait,
    }
}

/// How far an end has moved after a move.
fn moves_of(link: &LinkImage) -> MoveState
    requires { MayMove (Some link.now) }
    ensures { result ≡ moves_after link.now }
{
    let phase = if link.ended {
        Phase::Running
    } else {
        Phase::Resuming
    };
    let own = if link.ended {
        link.moves
    } else {
        link.moves + 1
    };
    MoveState {
        phase,
        own,
        recorded: link.partner_moves,
        partner: link.partner,
    }
}

/// The responder of an end.
fn responder_of(image: &ContextImage, link: &LinkImage) -> Responder
    requires { (end : EndImage) × IsLawfulLink image.now end link.now }
    ensures { result
        ≡ (link_after image.now.regions link.now (record { depth = 0; items = [] })).responder }
{
    let kept = kept_of(link.kept.as_slice());
    let parts = ResponderParts {
        expected: link.expected,
        nak_sent: link.nak_sent,
        msn: link.msn,
        flow: flow_of(image, &link.progress),
    };
    Responder::from_parts(&link.terms, kept, parts)
}

/// A connection, with its requests.
fn link_of(image: &ContextImage, end: &EndImage, link: &LinkImage, queue: SendQueue) -> EndLink
    requires lawful { IsLawfulLink image.now end.now link.now }
    requires moves { MayMove (Some link.now) }
    requires requests { map (λ p. p.request) queue.items ≡ map (λ p. p.request) end.now.untold }
    ensures { result ≡ link_after image.now.regions link.now queue }
{
    EndLink {
        peer: link.peer,
        terms: link.terms,
        ended: link.ended,
        requester: Requester::from_parts(&link.terms, queue, numbers_of(link)),
        responder: responder_of(image, link),
        moves: moves_of(link),
    }
}

/// An end, with its requests' payloads in new pages. Errors: `AllocError` when out of memory; all pages are given back
/// then.
pub fn endpoint_of(
    pool: &mut PagePool,
    alloc: Global,
    regions: &Regions,
    image: &ContextImage,
    end: &EndImage,
) -> Result<Endpoint, AllocError>
    requires lawful { IsLawfulEnd image.now end.now }
    requires moves { MayMove end.now.linked }
    requires may { All (MayCome regions.now (name_at image.now.domains end.now.domain))
        end.now.untold }
    requires held { AreHeld pool.old regions.now }
    ensures ok { IfOk result (λ x. IsEndAfter pool.old pool.new regions.now image.now end.now x) }
    ensures err { OnErr result (IsAlike pool.old pool.new) }
{
    let domain = image.domains.as_slice()[end.domain as usize];
    let recvs = recv_queue(alloc, u32::from(end.recv_depth), end.unused.as_slice())?;
    let depth = u32::from(end.send_depth);
    let queue = send_queue(pool, alloc, regions, domain, depth, end.untold.as_slice())?;
    let (unlinked, link) = match &end.linked {
        None => (Some(queue), None),
        Some(link) => (None, Some(link_of(image, end, link, queue))),
    };
    Ok(Endpoint {
        number: end.number,
        domain,
        send_depth: depth,
        recv_depth: u32::from(end.recv_depth),
        recvs,
        unlinked,
        link,
    })
}
