//! Bytes in memory, and memory regions.
#![tactic(auto, using(crate::proofs::Found::looked), unfolding(crate::specs::Differing::apart, crate::specs::Differences::region_difference))]

ghost use Rattle.std.specs.Prelude.{◌≡◌, ◌≤◌};
ghost use Rattle.page_pool.specs.Held.{HoldsPayload, payload_bytes};
ghost use Rattle.memory_keys.specs.Regions.{AreHeld, AreKeyed, IsSpot, regions_of, spot_bytes};
ghost use Rattle.device_differences.specs.Differing.{across, between};
ghost use Rattle.device_differences.specs.Differences.{region_difference};
ghost use Rattle.device_differences.specs.Shown.{IsUnder, bytes_under, region_under};

use crate::between::{apart, bytes, names, numbers};
use crate::values::region_numbers;
use memory_keys::{RegionHead, RegionRange, Regions};
use page_pool::{PAGE, PagePool, Payload};

/// The bytes of two payloads.
pub fn payloads(
    pool: &PagePool,
    payload: &Payload,
    other_pool: &PagePool,
    other: &Payload,
) -> Option<(u64, u64)>
    requires held { HoldsPayload pool.now payload.now }
    requires other_held { HoldsPayload other_pool.now other.now }
    ensures { result ≡ between (payload_bytes pool.now payload.now)
        (payload_bytes other_pool.now other.now) }
{
    let count = u64::from(payload.length.min(other.length));
    let mut done = 0;
    while done < count {
        let a = pool.piece(&payload.list, u64::from(payload.first) + done);
        let b = other_pool.piece(&other.list, u64::from(other.first) + done);
        let size = a.len().min(b.len()).min((count - done) as usize);
        let found = bytes(&a[..size], &b[..size]);
        if found.is_some() {
            return found;
        }
        done += size as u64;
    }
    apart(u64::from(payload.length), u64::from(other.length))
}

/// The bytes of two spots of one length, which is at most that of a page.
fn spots(
    pool: &PagePool,
    regions: &Regions,
    spot: RegionRange,
    other_pool: &PagePool,
    other: &Regions,
    other_spot: RegionRange,
) -> Option<(u64, u64)>
    requires held { AreHeld pool.now regions.now }
    requires other_held { AreHeld other_pool.now other.now }
    requires there { IsSpot regions.now spot }
    requires other_there { IsSpot other.now other_spot }
    requires same { other_spot.length ≡ spot.length }
    requires bounded { spot.length ≤ 4096 }
    ensures { result ≡ between (spot_bytes pool.now regions.now spot)
        (spot_bytes other_pool.now other.now other_spot) }
{
    let mut mine = [0; PAGE];
    let mut others = [0; PAGE];
    let a = &mut mine[..spot.length as usize];
    let b = &mut others[..spot.length as usize];
    regions.load(pool, spot, a);
    other.load(other_pool, other_spot, b);
    bytes(a, b)
}

/// The bytes of two regions.
fn region_bytes(
    pool: &PagePool,
    regions: &Regions,
    head: &RegionHead,
    other_pool: &PagePool,
    other: &Regions,
    other_head: &RegionHead,
) -> Option<(u64, u64)>
    requires held { AreHeld pool.now regions.now }
    requires other_held { AreHeld other_pool.now other.now }
    requires there { IsUnder regions.now head.now }
    requires other_there { IsUnder other.now other_head.now }
    ensures { result ≡ between (bytes_under pool.now regions.now head.now.keys.local)
        (bytes_under other_pool.now other.now other_head.now.keys.local) }
{
    let count = head.length.min(other_head.length);
    let mut done = 0;
    while done < count {
        let size = (count - done).min(PAGE as u32);
        let spot = RegionRange {
            region: head.keys.local,
            off: done,
            length: size,
        };
        let other_spot = RegionRange {
            region: other_head.keys.local,
            off: done,
            length: size,
        };
        let found = spots(pool, regions, spot, other_pool, other, other_spot);
        if found.is_some() {
            return found;
        }
        done += size;
    }
    apart(u64::from(head.length), u64::from(other_head.length))
}

/// Two regions.
fn region(
    pool: &PagePool,
    regions: &Regions,
    x: &RegionHead,
    other_pool: &PagePool,
    other: &Regions,
    y: &RegionHead,
) -> Option<(u64, u64)>
    requires held { AreHeld pool.now regions.now }
    requires other_held { AreHeld other_pool.now other.now }
    requires there { IsUnder regions.now x.now }
    requires other_there { IsUnder other.now y.now }
    ensures { result ≡ region_difference (region_under pool.now regions.now x.now)
        (region_under other_pool.now other.now y.now) }
{
    let found = names(&x.name, &y.name);
    if found.is_some() {
        return found;
    }
    let found = names(&x.domain, &y.domain);
    if found.is_some() {
        return found;
    }
    let found = numbers(&region_numbers(x), &region_numbers(y));
    if found.is_some() {
        return found;
    }
    region_bytes(pool, regions, x, other_pool, other, y)
}

/// Two lists of regions.
pub fn regions(
    pool: &PagePool,
    a: &Regions,
    other_pool: &PagePool,
    b: &Regions,
) -> Option<(u64, u64)>
    requires held { AreHeld pool.now a.now }
    requires other_held { AreHeld other_pool.now b.now }
    requires keyed { AreKeyed a.now }
    requires other_keyed { AreKeyed b.now }
    ensures { result ≡ across region_difference (regions_of pool.now a.now)
        (regions_of other_pool.now b.now) }
{
    for i in 0..a.len().min(b.len()) {
        let x = a.at(i).unwrap();
        let y = b.at(i).unwrap();
        let found = region(pool, a, &x, other_pool, b, &y);
        if found.is_some() {
            return found;
        }
    }
    apart(a.len() as u64, b.len() as u64)
}
