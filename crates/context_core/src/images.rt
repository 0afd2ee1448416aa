//! The image of a context.

ghost use Rattle.std.specs.Prelude.{◌≡◌, ◌<◌, IfOk, IfSome, length, map, slice_get};
ghost use Rattle.protocol.specs.Images.{end_image as image_of_end, image_of};
ghost use Rattle.context_core.specs.Context.{IsContext, context_in, end_of};
ghost use Rattle.context_core.specs.Fits.{FitsImage, IsNarrow};
ghost use Rattle.rdma_types.specs.declared.names.Name.{Name};

use crate::ContextState;
use crate::image_links::linked_image;
use crate::image_queues::queue_images;
use crate::image_regions::{names, position_of, region_images};
use crate::image_work::{receives, untold_images};
use page_pool::PagePool;
use protocol::{ContextImage, EndImage};
use rdma_types::{Items, Name};
use std::alloc::{AllocError, Global};

impl ContextState {
    /// The image of the context of that name. All stays as it is. Errors: `AllocError` when out of memory.
    pub fn image(
        &self,
        alloc: Global,
        pool: &PagePool,
        name: Name,
    ) -> Result<ContextImage, AllocError>
        requires is { IsContext pool.now self.now }
        requires fits { FitsImage (context_in pool.now name self.now) }
        ensures { IfOk result (λ image. image ≡ image_of (context_in pool.now name self.now)) }
    {
        Ok(ContextImage {
            name,
            domains: names(alloc, &self.domains)?,
            regions: region_images(alloc, pool, &self.domains, &self.regions)?,
            queues: queue_images(alloc, &self.queues)?,
            ends: self.end_images(alloc, pool)?,
        })
    }

    /// The image of the queue pair at a place.
    fn end_image(
        &self,
        alloc: Global,
        pool: &PagePool,
        place: usize,
    ) -> Result<EndImage, AllocError>
        requires is { IsContext pool.now self.now }
        requires narrow { IsNarrow self.now }
        requires there { place < length self.now.ends }
        ensures { IfOk result (λ image. IfSome (slice_get self.now.ends place) (λ e. (n : Name)
            → image ≡ image_of_end (context_in pool.now n self.now)
            (end_of pool.now self.now.queues e))) }
    {
        let (name, slot) = self.ends.get_index(place).unwrap();
        let end = &slot.endpoint;
        Ok(EndImage {
            name: *name,
            number: end.number,
            domain: position_of(&self.domains, end.domain),
            send_cq: slot.send as u16,
            recv_cq: slot.recv as u16,
            send_depth: end.send_depth as u16,
            recv_depth: end.recv_depth as u16,
            linked: linked_image(alloc, &self.regions, &end.link)?,
            untold: untold_images(alloc, pool, &end.link)?,
            unused: receives(alloc, &end.recvs)?,
        })
    }

    /// The images of queue pairs, in order of making.
    fn end_images(&self, alloc: Global, pool: &PagePool) -> Result<Items<EndImage>, AllocError>
        requires is { IsContext pool.now self.now }
        requires narrow { IsNarrow self.now }
        ensures { IfOk result (λ images. (n : Name)
            → images ≡ map (image_of_end (context_in pool.now n self.now))
            (context_in pool.now n self.now).ends) }
    {
        let mut images = Vec::new(alloc);
        for place in 0..self.ends.len() {
            let image = self.end_image(alloc, pool, place)?;
            images.push(image)?;
        }
        Ok(Items::new(images))
    }
}
