//! Images of memory regions, and the positions of things in an image.

ghost use Rattle.std.specs.Prelude.{◌≡◌, ◌<◌, ◌^◌, IfOk, IfSome, length, map, slice_get};
ghost use Rattle.page_pool.specs.Pool.{Pool};
ghost use Rattle.memory_keys.specs.Regions.{AreHeld, region_of, regions_of};
ghost use Rattle.protocol.specs.Images.{place_of_key, place_of_name, region_image as image_of_region};

use indexmap::IndexSet;
use memory_keys::Regions;
use page_pool::PagePool;
use protocol::RegionImage;
use rdma_types::{Items, Name};
use std::alloc::{AllocError, Global};

/// The position of a name, or how many names there are.
pub fn position_of(names: &IndexSet<Name>, name: Name) -> u16
    requires { length names.now.keys < 2 ^ 16 }
    ensures { result ≡ place_of_name name names.now.keys }
{
    match names.get_index_of(&name) {
        Some(place) => place as u16,
        None => names.len() as u16,
    }
}

/// The position of the region with a local key, or how many regions there are.
pub fn position_of_key(regions: &Regions, key: u32) -> u16
    requires { length regions.now < 2 ^ 16 }
    ensures { (pool : Pool) → result ≡ place_of_key key (regions_of pool regions.now) }
{
    match regions.place_of_key(key) {
        Some(place) => place as u16,
        None => regions.len() as u16,
    }
}

/// A copy of names. Errors: `AllocError` when out of memory.
pub fn names(alloc: Global, names: &IndexSet<Name>) -> Result<Items<Name>, AllocError>
    ensures { IfOk result (λ copy. copy ≡ names.now.keys) }
{
    let mut copy = Vec::new(alloc);
    for i in 0..names.len() {
        copy.push(*names.get_index(i).unwrap())?;
    }
    Ok(Items::new(copy))
}

/// The image of the region at a place.
fn region_image(
    alloc: Global,
    pool: &PagePool,
    domains: &IndexSet<Name>,
    regions: &Regions,
    place: usize,
) -> Result<RegionImage, AllocError>
    requires held { AreHeld pool.now regions.now }
    requires there { place < length regions.now }
    requires bounded { length domains.now.keys < 2 ^ 16 }
    ensures { IfOk result (λ image. IfSome (slice_get regions.now place) (λ h. image
        ≡ image_of_region domains.now.keys (region_of pool.now h))) }
{
    let head = regions.at(place).unwrap();
    let bytes = regions.bytes_at(alloc, pool, place)?;
    Ok(RegionImage {
        name: head.name,
        domain: position_of(domains, head.domain),
        base: head.base,
        length: head.length,
        rights: head.rights,
        keys: head.keys,
        bytes,
    })
}

/// The images of regions, in order of making. Errors: `AllocError` when out of memory.
pub fn region_images(
    alloc: Global,
    pool: &PagePool,
    domains: &IndexSet<Name>,
    regions: &Regions,
) -> Result<Items<RegionImage>, AllocError>
    requires held { AreHeld pool.now regions.now }
    requires bounded { length domains.now.keys < 2 ^ 16 }
    ensures { IfOk result (λ images. images ≡ map (image_of_region domains.now.keys)
        (regions_of pool.now regions.now)) }
{
    let mut images = Vec::new(alloc);
    for place in 0..regions.len() {
        let image = region_image(alloc, pool, domains, regions, place)?;
        images.push(image)?;
    }
    Ok(Items::new(images))
}
