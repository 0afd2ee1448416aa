//! Images of posted work.

ghost use Rattle.std.specs.Prelude.{◌≡◌, All, IfOk, map};
ghost use Rattle.std.specs.Option.{option_map};
ghost use Rattle.page_pool.specs.Held.{HoldsPayload};
ghost use Rattle.protocol.specs.Images.{posted_image as image_of_posted, untold_images as images_of_untold};
ghost use Rattle.end_queues.specs.Untold.{posted_in, untold_in};
ghost use Rattle.endpoint_core.specs.Ends.{link_in, untold_by};

use end_queues::work_queues::{QueuedRequest, RecvQueue};
use endpoint_core::EndLink;
use page_pool::PagePool;
use protocol::PostedImage;
use rdma_types::{Items, Receive};
use requester::Requester;
use std::alloc::{AllocError, Global};

/// A copy of the receives of a queue, oldest first. Errors: `AllocError` when out of memory.
pub fn receives(alloc: Global, queue: &RecvQueue) -> Result<Items<Receive>, AllocError>
    ensures { IfOk result (λ receives. receives ≡ queue.now.items) }
{
    let mut receives = Vec::new(alloc);
    for i in 0..queue.len() {
        receives.push(*queue.at(i).unwrap())?;
    }
    Ok(Items::new(receives))
}

/// The image of a posted request, with a copy of its bytes.
fn posted_image(
    alloc: Global,
    pool: &PagePool,
    posted: &QueuedRequest,
) -> Result<PostedImage, AllocError>
    requires { HoldsPayload pool.now posted.now.payload }
    ensures { IfOk result (λ image. image ≡ image_of_posted (posted_in pool.now posted.now)) }
{
    let payload = &posted.payload;
    let bytes = pool.copy_out(
        alloc,
        &payload.list,
        u64::from(payload.first),
        payload.length as usize,
    )?;
    Ok(PostedImage {
        request: posted.request,
        payload: bytes,
    })
}

/// The images of the untold requests of a requester, oldest first.
fn posted_images(
    alloc: Global,
    pool: &PagePool,
    requester: &Requester,
) -> Result<Items<PostedImage>, AllocError>
    requires { All (λ p. HoldsPayload pool.now p.payload) requester.now.items }
    ensures { IfOk result (λ images. images ≡ map image_of_posted
        (untold_in pool.now requester.now.items)) }
{
    let mut images = Vec::new(alloc);
    for i in 0..requester.untold() {
        let posted = requester.posted(i as usize).unwrap();
        let image = posted_image(alloc, pool, posted)?;
        images.push(image)?;
    }
    Ok(Items::new(images))
}

/// The images of the untold requests of an end, which has none before it is connected. Errors: `AllocError` when out of
/// memory.
pub fn untold_images(
    alloc: Global,
    pool: &PagePool,
    link: &Option<EndLink>,
) -> Result<Items<PostedImage>, AllocError>
    requires { All (λ p. HoldsPayload pool.now p.payload) (untold_by link.now) }
    ensures { IfOk result (λ images. images ≡ images_of_untold
        (option_map (link_in pool.now) link.now)) }
{
    match link {
        None => Ok(Items::new(Vec::new(alloc))),
        Some(link) => posted_images(alloc, pool, &link.requester),
    }
}
