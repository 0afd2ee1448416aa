//! Equal images. They share the bytes of regions.

ghost use Rattle.std.specs.Prelude.{◌≡◌, IfOk};

use protocol::{ContextImage, CqImage, EndImage, LinkImage, PostedImage, RegionImage};
use rdma_types::Items;
use std::alloc::{AllocError, Global};

/// Equal items.
fn copy_items<T: Copy>(alloc: Global, items: &Items<T>) -> Result<Items<T>, AllocError>
    ensures { IfOk result (λ copy. copy ≡ items.now) }
{
    let copy = Vec::from_slice(alloc, items.as_slice())?;
    Ok(Items::new(copy))
}

/// An equal region.
fn copy_region(alloc: Global, region: &RegionImage) -> Result<RegionImage, AllocError>
    ensures { IfOk result (λ copy. copy ≡ region.now) }
{
    let bytes = region.bytes.copy(alloc)?;
    Ok(RegionImage {
        name: region.name,
        domain: region.domain,
        base: region.base,
        length: region.length,
        rights: region.rights,
        keys: region.keys,
        bytes,
    })
}

/// An equal completion queue.
fn copy_queue(alloc: Global, queue: &CqImage) -> Result<CqImage, AllocError>
    ensures { IfOk result (λ copy. copy ≡ queue.now) }
{
    let entries = copy_items(alloc, &queue.entries)?;
    Ok(CqImage {
        name: queue.name,
        capacity: queue.capacity,
        entries,
    })
}

/// An equal untold request.
fn copy_request(alloc: Global, posted: &PostedImage) -> Result<PostedImage, AllocError>
    ensures { IfOk result (λ copy. copy ≡ posted.now) }
{
    let payload = posted.payload.copy(alloc)?;
    Ok(PostedImage {
        request: posted.request,
        payload,
    })
}

/// What a connected end has besides its queues, equal.
fn copy_link(alloc: Global, link: &LinkImage) -> Result<LinkImage, AllocError>
    ensures { IfOk result (λ copy. copy ≡ link.now) }
{
    let kept = copy_items(alloc, &link.kept)?;
    Ok(LinkImage {
        ended: link.ended,
        peer: link.peer,
        partner: link.partner,
        moves: link.moves,
        partner_moves: link.partner_moves,
        resuming: link.resuming,
        terms: link.terms,
        first: link.first,
        una: link.una,
        next: link.next,
        top: link.top,
        spent: link.spent,
        waits: link.waits,
        rnr_wait: link.rnr_wait,
        expected: link.expected,
        nak_sent: link.nak_sent,
        msn: link.msn,
        progress: link.progress,
        kept,
    })
}

/// The same, where the end was ever connected.
fn copy_linked(alloc: Global, linked: &Option<LinkImage>) -> Result<Option<LinkImage>, AllocError>
    ensures { IfOk result (λ copy. copy ≡ linked.now) }
{
    match linked {
        None => Ok(None),
        Some(link) => Ok(Some(copy_link(alloc, link)?)),
    }
}

/// Equal untold requests.
fn copy_requests(alloc: Global, posted: &[PostedImage]) -> Result<Items<PostedImage>, AllocError>
    ensures { IfOk result (λ copy. copy ≡ posted.now) }
{
    let mut copies = Vec::with_capacity(alloc, posted.len())?;
    for p in posted {
        copies.push(copy_request(alloc, p)?)?;
    }
    Ok(Items::new(copies))
}

/// An equal queue pair.
fn copy_end(alloc: Global, end: &EndImage) -> Result<EndImage, AllocError>
    ensures { IfOk result (λ copy. copy ≡ end.now) }
{
    let linked = copy_linked(alloc, &end.linked)?;
    let untold = copy_requests(alloc, end.untold.as_slice())?;
    let unused = copy_items(alloc, &end.unused)?;
    Ok(EndImage {
        name: end.name,
        number: end.number,
        domain: end.domain,
        send_cq: end.send_cq,
        recv_cq: end.recv_cq,
        send_depth: end.send_depth,
        recv_depth: end.recv_depth,
        linked,
        untold,
        unused,
    })
}

/// Equal regions.
fn copy_regions(alloc: Global, regions: &[RegionImage]) -> Result<Items<RegionImage>, AllocError>
    ensures { IfOk result (λ copy. copy ≡ regions.now) }
{
    let mut copies = Vec::with_capacity(alloc, regions.len())?;
    for r in regions {
        copies.push(copy_region(alloc, r)?)?;
    }
    Ok(Items::new(copies))
}

/// Equal completion queues.
fn copy_queues(alloc: Global, queues: &[CqImage]) -> Result<Items<CqImage>, AllocError>
    ensures { IfOk result (λ copy. copy ≡ queues.now) }
{
    let mut copies = Vec::with_capacity(alloc, queues.len())?;
    for q in queues {
        copies.push(copy_queue(alloc, q)?)?;
    }
    Ok(Items::new(copies))
}

/// Equal queue pairs.
fn copy_ends(alloc: Global, ends: &[EndImage]) -> Result<Items<EndImage>, AllocError>
    ensures { IfOk result (λ copy. copy ≡ ends.now) }
{
    let mut copies = Vec::with_capacity(alloc, ends.len())?;
    for e in ends {
        copies.push(copy_end(alloc, e)?)?;
    }
    Ok(Items::new(copies))
}

/// An equal image. Errors: `AllocError` when out of memory.
pub fn copy_image(alloc: Global, image: &ContextImage) -> Result<ContextImage, AllocError>
    ensures { IfOk result (λ copy. copy ≡ image.now) }
{
    let domains = copy_items(alloc, &image.domains)?;
    let regions = copy_regions(alloc, image.regions.as_slice())?;
    let queues = copy_queues(alloc, image.queues.as_slice())?;
    let ends = copy_ends(alloc, image.ends.as_slice())?;
    Ok(ContextImage {
        name: image.name,
        domains,
        regions,
        queues,
        ends,
    })
}
