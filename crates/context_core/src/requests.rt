//! Posted requests that come of an image.

ghost use Rattle.std.specs.Prelude.{◌≡◌, ◌+◌, ◌≤◌, ◌∷◌, [], All, None, IfOk, OnErr, OnOk, length, if◌then◌else◌, ◌==◌, ◌%◌};
ghost use Rattle.rdma_types.specs.Limits.{most_bytes};
ghost use Rattle.page_pool.specs.Pool.{Pool, Puts, bytes_of, free_pages, pages_of};
ghost use Rattle.page_pool.specs.Held.{HoldsPayload, payload_bytes};
ghost use Rattle.memory_keys.specs.Regions.{AreHeld, pages_touched, regions_of};
ghost use Rattle.protocol.specs.Memory.{pages_of_request};
ghost use Rattle.protocol.specs.State.{no_context};
ghost use Rattle.end_completions.specs.Payloads.{AreApart, GivesBack};
ghost use Rattle.context_core.specs.Coming.{AreTaken, Come, IsAlike, MayCome};

use end_queues::work_queues::{QueuedRequest, SendQueue};
use memory_keys::{Payload, RegionRange, Regions};
use page_pool::{ByteRun, PagePool};
use protocol::PostedImage;
use rdma_types::Name;
use std::alloc::{AllocError, Global};

/// Where the bytes of a request were taken from.
fn source_of(regions: &Regions, domain: Name, image: &PostedImage) -> RegionRange
    requires { MayCome regions.now domain image.now }
    ensures length { result.length ≡ length image.now.payload }
    ensures bounded { result.length ≤ most_bytes }
    ensures pages { (pool : Pool) → pages_touched result
        ≡ pages_of_request (record no_context { regions = regions_of pool regions.now })
        image.now.request }
{
    let request = &image.request;
    let count = image.payload.len() as u32;
    regions
        .check_local(domain, request.lkey, request.local, count, false)
        .unwrap()
}

/// Where the bytes of a spot begin in their first page.
fn first_of(spot: RegionRange) -> u32
    ensures { result ≡ (if spot.length == 0 then 0 else spot.off % 4096) }
{
    if spot.length == 0 {
        return 0;
    }
    spot.off % 4096
}

/// How many pages a spot touches.
fn touched(spot: RegionRange) -> u32
    requires { spot.length ≤ most_bytes }
    ensures { result ≡ pages_touched spot }
{
    if spot.length == 0 {
        return 0;
    }
    (spot.off % 4096 + spot.length).div_ceil(4096)
}

/// Bytes in new pages, as they lie at a spot.
fn payload_of(
    pool: &mut PagePool,
    alloc: Global,
    spot: RegionRange,
    bytes: &ByteRun,
) -> Result<Payload, AllocError>
    requires whole { length bytes.now ≡ spot.length }
    requires bounded { spot.length ≤ most_bytes }
    ensures new { IfOk result (λ p. bytes_of pool.old p.list ≡ None) }
    ensures puts { IfOk result (λ p. Puts pool.old pool.new p.list (bytes_of pool.new p.list)) }
    ensures holds { IfOk result (λ p. HoldsPayload pool.new p) }
    ensures length { IfOk result (λ p. p.length ≡ spot.length) }
    ensures bytes { IfOk result (λ p. payload_bytes pool.new p ≡ bytes.now) }
    ensures pages { IfOk result (λ p. pages_of (bytes_of pool.new p.list) ≡ pages_touched spot) }
    ensures free { OnOk result (free_pages pool.new + pages_touched spot ≡ free_pages pool.old) }
    ensures err { OnErr result (pool.new ≡ pool.old) }
{
    // The pages of the image were counted before.
    let Ok(mut list) = pool.take(alloc, touched(spot)) else {
        return Err(AllocError);
    };
    let first = first_of(spot);
    let length = spot.length;
    pool.write_run(&mut list, u64::from(first), bytes);
    Ok(Payload {
        list,
        first,
        length,
    })
}

/// A request with its bytes in new pages.
fn posted_of(
    pool: &mut PagePool,
    alloc: Global,
    regions: &Regions,
    domain: Name,
    image: &PostedImage,
) -> Result<QueuedRequest, AllocError>
    requires may { MayCome regions.now domain image.now }
    requires held { AreHeld pool.old regions.now }
    ensures come { IfOk result (λ p. Come pool.old pool.new regions.now domain (image.now ∷ [])
        (p ∷ [])) }
    ensures err { OnErr result (pool.new ≡ pool.old) }
{
    let spot = source_of(regions, domain, image);
    let payload = payload_of(pool, alloc, spot, &image.payload)?;
    Ok(QueuedRequest {
        request: image.request,
        payload,
    })
}

/// Puts requests into an empty queue. What is put there before memory runs out stays there.
fn put_requests(
    queue: &mut SendQueue,
    pool: &mut PagePool,
    alloc: Global,
    regions: &Regions,
    domain: Name,
    images: &[PostedImage],
) -> Result<(), AllocError>
    requires empty { queue.old.items ≡ [] }
    requires room { length images.now ≤ queue.old.depth }
    requires may { All (MayCome regions.now domain) images.now }
    requires held { AreHeld pool.old regions.now }
    ensures depth { queue.new.depth ≡ queue.old.depth }
    ensures taken { AreTaken pool.old pool.new queue.new.items }
    ensures come { OnOk result (Come pool.old pool.new regions.now domain images.now
        queue.new.items) }
{
    for image in images {
        let posted = posted_of(pool, alloc, regions, domain, image)?;
        queue.post(posted).unwrap();
    }
    Ok(())
}

/// Gives back the pages of the payloads of a queue.
fn give_requests(queue: SendQueue, pool: &mut PagePool)
    requires { AreApart pool.old queue.items }
    ensures gives { GivesBack pool.old pool.new queue.items }
    ensures gone { All (λ p. bytes_of pool.new p.payload.list ≡ None) queue.items }
{
    let mut queue = queue;
    while let Some(posted) = queue.drop_front() {
        pool.give(posted.payload.list);
    }
}

/// The send queue of an end's requests. Errors: `AllocError` when out of memory; all pages are given back then.
pub fn send_queue(
    pool: &mut PagePool,
    alloc: Global,
    regions: &Regions,
    domain: Name,
    depth: u32,
    images: &[PostedImage],
) -> Result<SendQueue, AllocError>
    requires room { length images.now ≤ depth }
    requires may { All (MayCome regions.now domain) images.now }
    requires held { AreHeld pool.old regions.now }
    ensures depth { IfOk result (λ queue. queue.depth ≡ depth) }
    ensures come { IfOk result (λ queue. Come pool.old pool.new regions.now domain images.now
        queue.items) }
    ensures err { OnErr result (IsAlike pool.old pool.new) }
{
    let mut queue = SendQueue::make(alloc, depth)?;
    match put_requests(&mut queue, pool, alloc, regions, domain, images) {
        Ok(()) => Ok(queue),
        Err(fault) => {
            give_requests(queue, pool);
            Err(fault)
        }
    }
}
