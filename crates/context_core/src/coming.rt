//! The context that comes of an image.

ghost use Rattle.std.specs.Prelude.{◌≡◌, ◌+◌, ◌≢◌, ◌<◌, ◌≤◌, [], length, map, Some, None, All, AllPairs, IfOk, IfSome, OnErr, OnOk, false, nat_lt, slice_get, if◌then◌else◌};
ghost use Rattle.std.specs.Map.{values_of};
ghost use Rattle.indexmap.specs.IndexMap.{set_value_at};
ghost use Rattle.rdma_types.specs.Limits.{most_depth};
ghost use Rattle.rdma_types.specs.Lists.{some};
ghost use Rattle.rdma_types.specs.declared.answers.Refusal.TheVariants as refusal;
ghost use Rattle.page_pool.specs.Pool.{free_pages};
ghost use Rattle.end_queues.specs.Completions.{used_places};
ghost use Rattle.memory_keys.specs.Regions.{regions_of};
ghost use Rattle.protocol.specs.Images.{context_of, moved, region_of_image};
ghost use Rattle.protocol.specs.Lawful.{IsLawful, IsLawfulRegion};
ghost use Rattle.protocol.specs.Memory.{pages_of_context};
ghost use Rattle.protocol.specs.Refusals.{has_moved_out, links_of};
ghost use Rattle.context_core.specs.Coming.{AreMade, AreReservedFor, HasPlaces, IsPart, MayMove, bare_after, head_after, queue_after};
ghost use Rattle.context_core.specs.Context.{IsContext, Moves, context_in, no_holding};
ghost use Rattle.context_core.specs.Faults.{refusal_of};

use crate::counting::less_image;
use crate::ends::append;
use crate::links::{endpoint_of, used};
use crate::{ContextFault, ContextState, EndSlot};
use end_queues::completion_queue::Cq;
use indexmap::{IndexMap, IndexSet};
use memory_keys::{RegionHead, Regions};
use page_pool::PagePool;
use protocol::{ContextImage, CqImage, EndImage, RegionImage};
use rdma_types::{Name, Refusal};
use std::alloc::{AllocError, Global};

/// Puts the domains of an image into an empty set.
fn put_domains(domains: &mut IndexSet<Name>, names: &[Name]) -> Result<(), AllocError>
    requires empty { domains.old.keys ≡ [] }
    requires names { AllPairs (λ a b. a ≢ b) names.now }
    ensures { OnOk result (domains.new.keys ≡ names.now) }
{
    for name in names {
        domains.insert(*name)?;
    }
    Ok(())
}

/// Puts the completion queues of an image into an empty map, with no place reserved.
fn put_queues(
    queues: &mut IndexMap<Name, Cq>,
    alloc: Global,
    images: &[CqImage],
) -> Result<(), AllocError>
    requires empty { queues.old.entries ≡ [] }
    requires names { AllPairs (λ a b. a.name ≢ b.name) images.now }
    requires room { All (λ q. length q.entries ≤ q.capacity) images.now }
    ensures { OnOk result (queues.new.entries ≡ map queue_after images.now) }
{
    for image in images {
        let queue = Cq::from_entries(alloc, image.capacity, image.entries.as_slice())?;
        queues.insert(image.name, queue)?;
    }
    Ok(())
}

/// What is told of a region of an image.
fn head_of(domains: &[Name], image: &RegionImage) -> RegionHead
    requires { image.now.domain < length domains.now }
    ensures { result ≡ head_after domains.now image.now }
{
    RegionHead {
        name: image.name,
        domain: domains[image.domain as usize],
        base: image.base,
        length: image.length,
        rights: image.rights,
        keys: image.keys,
    }
}

/// Puts the regions of an image into new pages. Those that are made before memory runs out stay.
fn put_regions(
    regions: &mut Regions,
    pool: &mut PagePool,
    alloc: Global,
    domains: &[Name],
    images: &[RegionImage],
) -> Result<(), AllocError>
    requires empty { regions.old ≡ [] }
    requires lawful { All (IsLawfulRegion (length domains.now)) images.now }
    requires keys { AllPairs (λ a b. a.keys.local ≢ b.keys.local) images.now }
    ensures made { AreMade pool.old pool.new regions.new }
    ensures regions { OnOk result (regions_of pool.new regions.new
        ≡ map (region_of_image domains.now) images.now) }
{
    for image in images {
        let head = head_of(domains, image);
        // Its name and its place keep the rules, and the pages of the image were counted before.
        let Ok(()) = regions.restore(pool, alloc, head, &image.bytes) else {
            return Err(AllocError);
        };
    }
    Ok(())
}

/// Reserves so many places of a queue.
fn reserve_places(queue: &mut Cq, count: u32)
    requires { used_places queue.old + count ≤ queue.old.capacity }
    ensures { queue.new ≡ record queue.old { reserved = queue.old.reserved + count } }
{
    for _place in 0..count {
        queue.reserve().unwrap();
    }
}

/// Reserves so many places of the queue at a place.
fn reserve_at(queues: &mut IndexMap<Name, Cq>, place: u16, count: u32)
    requires there { place < length queues.old.entries }
    requires room { IfSome (slice_get (values_of queues.old.entries) place)
        (λ q. used_places q + count ≤ q.capacity) }
    ensures { IfSome (slice_get (values_of queues.old.entries) place) (λ q. queues.new.entries
        ≡ set_value_at queues.old.entries place (record q { reserved = q.reserved + count })) }
{
    let queue = queues.get_index_mut(place as usize).unwrap();
    reserve_places(queue, count);
}

/// Reserves the places of the completions of an end's work.
fn reserve_end(queues: &mut IndexMap<Name, Cq>, end: &EndImage)
    requires send { end.now.send_cq < length queues.old.entries }
    requires recv { end.now.recv_cq < length queues.old.entries }
    requires room { HasPlaces queues.old.entries end.now }
    requires few_sends { length end.now.untold ≤ most_depth }
    requires few_receives { length end.now.unused ≤ most_depth }
    ensures { AreReservedFor queues.old.entries queues.new.entries end.now }
{
    reserve_at(queues, end.send_cq, end.untold.len() as u32);
    let receives = end.unused.len() as u32 + used(&end.linked);
    reserve_at(queues, end.recv_cq, receives);
}

impl ContextState {
    /// Puts the next end of an image behind those that are there. When out of memory, all pages that it took are given
    /// back.
    fn put_end(
        &mut self,
        pool: &mut PagePool,
        alloc: Global,
        image: &ContextImage,
        end: &EndImage,
    ) -> Result<(), AllocError>
        requires lawful { IsLawful image.now }
        requires moves { MayMove end.now.linked }
        requires is { IsContext pool.old self.old }
        requires part { IsPart pool.old image.now (length self.old.ends) self.old }
        requires next { slice_get image.now.ends (length self.old.ends) ≡ Some end.now }
        ensures is { IsContext pool.new self.new }
        ensures moves { Moves pool.old pool.new self.old self.new }
        ensures part { OnOk result (IsPart pool.new image.now (length self.new.ends) self.new) }
        ensures more { OnOk result (length self.new.ends ≡ length self.old.ends + 1) }
    {
        self.ends.reserve(1)?;
        let endpoint = endpoint_of(pool, alloc, &self.regions, image, end)?;
        reserve_end(&mut self.queues, end);
        let slot = EndSlot {
            send: u32::from(end.send_cq),
            recv: u32::from(end.recv_cq),
            endpoint,
        };
        append(&mut self.ends, end.name, slot);
        Ok(())
    }

    /// Puts the ends of an image into a context that has the rest of it.
    fn put_ends(
        &mut self,
        pool: &mut PagePool,
        alloc: Global,
        image: &ContextImage,
    ) -> Result<(), AllocError>
        requires lawful { IsLawful image.now }
        requires moves { All (λ e. MayMove e.linked) image.now.ends }
        requires is { IsContext pool.old self.old }
        requires part { IsPart pool.old image.now 0 self.old }
        requires empty { self.old.ends ≡ [] }
        ensures is { IsContext pool.new self.new }
        ensures moves { Moves pool.old pool.new self.old self.new }
        ensures part { OnOk result (IsPart pool.new image.now (length image.now.ends) self.new) }
    {
        for end in image.ends.as_slice() {
            self.put_end(pool, alloc, image, end)?;
        }
        Ok(())
    }

    /// Puts the domains and the completion queues of an image into an empty context.
    fn put_bare(&mut self, alloc: Global, image: &ContextImage) -> Result<(), AllocError>
        requires lawful { IsLawful image.now }
        requires empty { self.old ≡ no_holding }
        ensures { OnOk result (self.new ≡ bare_after image.now) }
    {
        put_domains(&mut self.domains, image.domains.as_slice())?;
        put_queues(&mut self.queues, alloc, image.queues.as_slice())
    }

    /// A context with the domains and the completion queues of an image alone.
    fn bare_of(alloc: Global, image: &ContextImage) -> Result<ContextState, AllocError>
        requires { IsLawful image.now }
        ensures { IfOk result (λ s. s ≡ bare_after image.now) }
    {
        let mut bare = ContextState::make(alloc);
        let filled = bare.put_bare(alloc, image);
        bare.once(filled)
    }

    /// Puts the regions and the ends of an image into a context that has the rest of it.
    fn put_rest(
        &mut self,
        pool: &mut PagePool,
        alloc: Global,
        image: &ContextImage,
    ) -> Result<(), AllocError>
        requires lawful { IsLawful image.now }
        requires moves { All (λ e. MayMove e.linked) image.now.ends }
        requires bare { self.old ≡ bare_after image.now }
        ensures is { IsContext pool.new self.new }
        ensures moves { Moves pool.old pool.new no_holding self.new }
        ensures part { OnOk result (IsPart pool.new image.now (length image.now.ends) self.new) }
    {
        let (domains, regions) = (image.domains.as_slice(), image.regions.as_slice());
        let made = put_regions(&mut self.regions, pool, alloc, domains, regions);
        self.regions.are_keyed();
        made?;
        self.put_ends(pool, alloc, image)
    }

    /// Whether a pool has fewer free pages than the context of an image that keeps the rules takes.
    pub fn lacks_pages(pool: &PagePool, image: &ContextImage) -> bool
        requires { IsLawful image.now }
        ensures { result ≡ nat_lt (free_pages pool.now) (pages_of_context (context_of image.now)) }
    {
        less_image(pool.free(), image).is_none()
    }

    /// The moved context of an image that keeps the rules. None of its ends may have reached the limit of moves.
    /// Errors: refused with `NoPage` exactly where too few pages are free, or `OutOfMemory`. The lists of others and
    /// the count of free pages are then as before.
    pub fn from_image(
        alloc: Global,
        pool: &mut PagePool,
        image: &ContextImage,
    ) -> Result<ContextState, ContextFault>
        requires lawful { IsLawful image.now }
        requires moves { some has_moved_out (links_of (context_of image.now)) ≡ false }
        ensures refused { refusal_of result
            ≡ (if nat_lt (free_pages pool.old) (pages_of_context (context_of image.now))
            then Some refusal.NoPage else None) }
        ensures moved { IfOk result (λ s. context_in pool.new image.now.name s
            ≡ moved (context_of image.now)) }
        ensures is { IfOk result (λ s. IsContext pool.new s) }
        ensures moves { IfOk result (λ s. Moves pool.old pool.new no_holding s) }
        ensures err { OnErr result (Moves pool.old pool.new no_holding no_holding) }
    {
        if ContextState::lacks_pages(pool, image) {
            return Err(Refusal::NoPage.into());
        }
        let mut state = ContextState::bare_of(alloc, image)?;
        match state.put_rest(pool, alloc, image) {
            Ok(()) => Ok(state),
            Err(fault) => {
                state.release(pool);
                Err(fault.into())
            }
        }
    }
}
