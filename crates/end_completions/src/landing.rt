//! Bytes that land in the local place of a request.

ghost use Rattle.std.specs.Prelude.{◌≡◌, ◌+◌, ◌≤◌, length, true};
ghost use Rattle.page_pool.specs.Pool.{free_pages};
ghost use Rattle.memory_keys.specs.Regions.{AreHeld, KeepsOthers, regions_of};
ghost use Rattle.protocol.specs.Memory.{landed};
ghost use Rattle.protocol.specs.State.{Context};
ghost use Rattle.rdma_types.specs.Memory.{LocalWrite, is_granted, local_key};

use memory_keys::Regions;
use page_pool::PagePool;
use rdma_types::{Name, Request};

/// Stores bytes in a request's local place, from its byte `off` on.
pub fn land(
    regions: &mut Regions,
    pool: &mut PagePool,
    domain: Name,
    request: &Request,
    off: u32,
    bytes: &[u8],
)
    requires held { AreHeld pool.old regions.old }
    requires granted { is_granted local_key (regions_of pool.old regions.old) domain
        request.now.lkey request.now.local request.now.shape.length LocalWrite ≡ true }
    requires inside { off + length bytes.now ≤ request.now.shape.length }
    ensures landed { (c : Context) → c.regions ≡ regions_of pool.old regions.old
        → landed c request.now.lkey (request.now.local + off) bytes.now ≡ record c { regions = regions_of pool.new regions.new } }
    ensures same { regions.new ≡ regions.old }
    ensures held { AreHeld pool.new regions.new }
    ensures others { KeepsOthers pool.old pool.new regions.old }
    ensures free { free_pages pool.new ≡ free_pages pool.old }
{
    let (lkey, local, length) = (request.lkey, request.local, request.shape.length);
    let place = regions.check_local(domain, lkey, local, length, true);
    regions.store_part(pool, place.unwrap(), off, bytes);
}
