//! The pages that an image takes.

ghost use Rattle.std.specs.Prelude.{ℕ, ◌≡◌, ◌<◌, ◌+◌, List, All, MatchOption, map, sum_by};
ghost use Rattle.rdma_types.specs.Kinds as kinds;
ghost use Rattle.rdma_types.specs.Lists.{at};
ghost use Rattle.rdma_types.specs.Objects.{no_region};
ghost use Rattle.rdma_types.specs.declared.names.Name.{Name};
ghost use Rattle.protocol.specs.Images.{context_of, region_of_image};
ghost use Rattle.protocol.specs.Lawful.{IsLawful, IsLawfulState};
ghost use Rattle.protocol.specs.Memory.{pages_of_context, pages_of_length, pages_of_request};
ghost use Rattle.protocol.specs.State.{Context};

use protocol::{ContextImage, EndImage, PostedImage, RegionImage};
use rdma_types::{Kind, Request};

/// What is left of free pages once these regions have theirs; None where they are too few.
fn less_regions(free: u32, regions: &[RegionImage]) -> Option<u32>
    ensures { MatchOption result (free < sum_by (λ r. pages_of_length r.length) regions.now)
        (λ left. left + sum_by (λ r. pages_of_length r.length) regions.now ≡ free) }
{
    let mut left = free;
    for region in regions {
        left = left.checked_sub(region.length.div_ceil(4096))?;
    }
    Some(left)
}

/// The first address of the region with a local key, and 0 where there is none.
fn base_of(regions: &[RegionImage], key: u32) -> u64
    ensures { (domains : List Name)
        → result
        ≡ (at (λ r. r.keys.local) no_region key (map (region_of_image domains) regions.now)).base }
{
    for region in regions {
        if region.keys.local == key {
            return region.base;
        }
    }
    0
}

/// A request of this kind takes the bytes of its message as it is posted.
fn takes_bytes(kind: Kind) -> bool
    ensures { result ≡ kinds.takes_bytes kind }
{
    matches!(kind, Kind::Write | Kind::Send)
}

/// The pages that the bytes of a request take.
fn pages_of(regions: &[RegionImage], request: &Request) -> u32
    ensures { (c : Context) (domains : List Name)
        → c.regions ≡ map (region_of_image domains) regions.now
        → result ≡ pages_of_request c request.now }
{
    let length = request.shape.length;
    if length == 0 || !takes_bytes(request.shape.kind) {
        return 0;
    }
    let off = request.local.saturating_sub(base_of(regions, request.lkey)) % 4096;
    (off + u64::from(length)).div_ceil(4096) as u32
}

/// What is left of free pages once these requests have theirs; None where they are too few.
fn less_requests(free: u32, regions: &[RegionImage], untold: &[PostedImage]) -> Option<u32>
    ensures { (c : Context) (domains : List Name) → c.regions ≡ map (region_of_image domains) regions.now
        → MatchOption result (free < sum_by (λ p. pages_of_request c p.request) untold.now) (λ left. left + sum_by (λ p. pages_of_request c p.request) untold.now ≡ free) }
{
    let mut left = free;
    for posted in untold {
        left = left.checked_sub(pages_of(regions, &posted.request))?;
    }
    Some(left)
}

/// What is left of free pages once the requests of these ends have theirs; None where they are too few.
fn less_ends(free: u32, regions: &[RegionImage], ends: &[EndImage]) -> Option<u32>
    ensures { (c : Context) (domains : List Name) → c.regions ≡ map (region_of_image domains) regions.now
        → MatchOption result (free < sum_by (λ e. sum_by (λ p. pages_of_request c p.request) e.untold) ends.now)
        (λ left. left + sum_by (λ e. sum_by (λ p. pages_of_request c p.request) e.untold) ends.now ≡ free) }
{
    let mut left = free;
    for end in ends {
        left = less_requests(left, regions, end.untold.as_slice())?;
    }
    Some(left)
}

/// What is left of free pages once an image has its own; None where they are too few.
pub fn less_image(free: u32, image: &ContextImage) -> Option<u32>
    requires { IsLawful image.now }
    ensures { MatchOption result (free < pages_of_context (context_of image.now))
        (λ left. left + pages_of_context (context_of image.now) ≡ free) }
{
    let regions = image.regions.as_slice();
    let left = less_regions(free, regions)?;
    less_ends(left, regions, image.ends.as_slice())
}
