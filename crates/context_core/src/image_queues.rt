//! Images of completion queues.

ghost use Rattle.std.specs.Prelude.{◌≡◌, IfOk, map};
ghost use Rattle.protocol.specs.Images.{queue_image as image_of_queue};
ghost use Rattle.endpoint_core.specs.Queues.{queues_of};

use end_queues::completion_queue::Cq;
use indexmap::IndexMap;
use protocol::CqImage;
use rdma_types::{Completion, Items, Name};
use std::alloc::{AllocError, Global};

/// A copy of the entries of a queue, oldest first.
fn entries(alloc: Global, queue: &Cq) -> Result<Items<Completion>, AllocError>
    ensures { IfOk result (λ entries. entries ≡ queue.now.entries) }
{
    let mut entries = Vec::new(alloc);
    for i in 0..queue.len() {
        entries.push(*queue.at(i).unwrap())?;
    }
    Ok(Items::new(entries))
}

/// The image of a completion queue.
fn queue_image(alloc: Global, name: Name, queue: &Cq) -> Result<CqImage, AllocError>
    ensures { IfOk result (λ image. image ≡ image_of_queue
        (record { name = name; capacity = queue.now.capacity; entries = queue.now.entries })) }
{
    Ok(CqImage {
        name,
        capacity: queue.capacity(),
        entries: entries(alloc, queue)?,
    })
}

/// The images of completion queues, in order of making. Errors: `AllocError` when out of memory.
pub fn queue_images(
    alloc: Global,
    queues: &IndexMap<Name, Cq>,
) -> Result<Items<CqImage>, AllocError>
    ensures { IfOk result (λ images. images ≡ map image_of_queue (queues_of queues.now.entries)) }
{
    let mut images = Vec::new(alloc);
    for i in 0..queues.len() {
        let (name, queue) = queues.get_index(i).unwrap();
        let image = queue_image(alloc, *name, queue)?;
        images.push(image)?;
    }
    Ok(Items::new(images))
}
